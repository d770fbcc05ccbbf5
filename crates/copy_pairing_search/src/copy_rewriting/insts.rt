//! Instructions with another row.

ghost use Rattle.std.specs.Prelude.{◌≡◌, OnOk, MatchOption};
ghost use Rattle.copy_pairing_model.specs.Copies as copies;
ghost use Rattle.copy_pairing_model.specs.Rewritten as rewritten;
ghost use Rattle.copy_pairing_model.specs.Rewritten.{lent_inst, with_op};

use instruction_table::Op;
use sil_ast::{Boxed, Debug, Exhausted, Inst, List, Operands, Qualifier, ShortList, ValueId};
use std::alloc::Global;
use std::mem;

/// Whether the instruction has this row of the table.
fn is_op(op: Op, inst: &Inst) -> bool
    ensures { result ≡ copies.is_op op inst.now }
{
    inst.op as usize == op as usize
}

/// Whether the value is a result of the instruction.
fn makes(value: ValueId, inst: &Inst) -> bool
    ensures { result ≡ rewritten.makes value inst.now }
{
    inst.results.as_slice().iter().any(|made| made.0 == value.0)
}

/// Whether the value is an operand of the instruction.
fn takes(value: ValueId, inst: &Inst) -> bool
    ensures { result ≡ rewritten.takes value inst.now }
{
    inst.operands
        .as_slice()
        .iter()
        .any(|operand| operand.value.0 == value.0)
}

/// The row of the instruction where the value becomes a borrow, if that is another one.
fn lent_op(inst: &Inst, value: ValueId) -> Option<Op>
    ensures { MatchOption result (lent_inst value inst.now ≡ inst.now) (λ op. lent_inst value inst.now ≡ with_op op inst.now) }
{
    if is_op(Op::CopyValue, inst) && makes(value, inst) {
        return Some(Op::BeginBorrow);
    }
    if is_op(Op::DestroyValue, inst) && takes(value, inst) {
        return Some(Op::EndBorrow);
    }
    None
}

/// An instruction that stands in a box for a while.
fn spare(alloc: Global) -> Inst {
    Inst {
        op: Op::Unreachable,
        qualifier: Qualifier::Plain,
        lexical: false,
        var_decl: false,
        function: None,
        results: ShortList::new(alloc),
        operands: Operands::new(alloc),
        ty: None,
        signature: None,
        member: None,
        number: None,
        text: None,
        debug: Debug {
            name: None,
            binding: None,
            argno: None,
            deref: false,
        },
        edges: List::new(alloc),
    }
}

/// The instruction with another row.
fn with_row(inst: Inst, op: Op) -> Inst
    ensures { result ≡ with_op op inst }
{
    let mut changed = inst;
    changed.op = op;
    changed
}

/// Gives the instruction another row. Where memory runs out, another instruction is left.
pub(crate) fn put_op(alloc: Global, inst: &mut Boxed<Inst>, op: Op) -> Result<(), Exhausted>
    ensures { OnOk result (inst.new ≡ with_op op inst.old) }
{
    let spare = Boxed::new(alloc, spare(alloc))?;
    let taken = mem::replace(inst, spare);
    *inst = Boxed::new(alloc, with_row(taken.into_inner(), op))?;
    Ok(())
}

/// The instruction where the value becomes a borrow.
pub(crate) fn lend_inst(
    alloc: Global,
    inst: &mut Boxed<Inst>,
    value: ValueId,
) -> Result<(), Exhausted>
    ensures { OnOk result (inst.new ≡ lent_inst value inst.old) }
{
    match lent_op(inst.get(), value) {
        None => Ok(()),
        Some(op) => put_op(alloc, inst, op),
    }
}
