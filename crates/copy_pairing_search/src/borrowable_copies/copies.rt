//! Copies and destroys, as they stand in a function.

ghost use Rattle.std.specs.Prelude.{◌≡◌, ◌↔◌, ◌∷◌, [], IfNone, IfSome, IsTrue};
ghost use Rattle.sil_ast.specs.declared.operands.Operand.{Operand};
ghost use Rattle.sil_ast.specs.declared.place.ValueId.{ValueId};
ghost use Rattle.copy_pairing_model.specs.Copies as copies;
ghost use Rattle.copy_pairing_model.specs.Copies.{Copies, Destroys, IsCopy, IsDestroy};

use instruction_table::Op;
use sil_ast::{Function, Inst, Operand, PointId, ValueId};
use sil_cfg::Item;
use sil_cfg_items::item_inst;

/// What a `copy_value` makes, and what it copies.
#[derive(Clone, Copy)]
pub struct Copied {
    pub value: ValueId,
    pub operand: ValueId,
}

/// Whether the instruction has this row of the table.
pub(crate) fn is_op(op: Op, inst: &Inst) -> bool
    ensures { result ≡ copies.is_op op inst.now }
{
    inst.op as usize == op as usize
}

/// The one value, if there is just one.
fn only_value(values: &[ValueId]) -> Option<ValueId>
    ensures some { IfSome result (λ v. values.now ≡ v ∷ []) }
    ensures none { IfNone result ((v : ValueId) → ¬ (values.now ≡ v ∷ [])) }
{
    match values {
        [value] => Some(*value),
        _ => None,
    }
}

/// The one operand, if there is just one.
fn only_operand(operands: &[Operand]) -> Option<&Operand>
    ensures some { IfSome result (λ o. operands.now ≡ o.now ∷ []) }
    ensures none { IfNone result ((o : Operand) → ¬ (operands.now ≡ o ∷ [])) }
{
    match operands {
        [operand] => Some(operand),
        _ => None,
    }
}

/// The values of `%1 = copy_value %0`, if the instruction is one.
fn copied_by(inst: &Inst) -> Option<Copied>
    ensures some { IfSome result (λ x. Copies inst.now x.value x.operand) }
    ensures none { IfNone result ((c v : ValueId) → ¬ Copies inst.now c v) }
{
    if !is_op(Op::CopyValue, inst) {
        return None;
    }
    let value = only_value(inst.results.as_slice())?;
    let operand = only_operand(inst.operands.as_slice())?;
    Some(Copied {
        value,
        operand: operand.value,
    })
}

/// The copy at the point, if one stands there.
pub fn copy_at(f: &Function, p: PointId) -> Option<Copied>
    ensures some { IfSome result (λ x. IsCopy f.now p x.value x.operand) }
    ensures none { IfNone result ((c v : ValueId) → ¬ IsCopy f.now p c v) }
{
    match item_inst(f, Item::Inst(p)) {
        None => None,
        Some(inst) => copied_by(inst),
    }
}

/// Whether the instruction is `destroy_value` of the value.
fn destroys(inst: &Inst, value: ValueId) -> bool
    ensures { IsTrue result ↔ Destroys inst.now value }
{
    if !is_op(Op::DestroyValue, inst) {
        return false;
    }
    match only_operand(inst.operands.as_slice()) {
        None => false,
        Some(operand) => operand.value.0 == value.0,
    }
}

/// Whether a `destroy_value` of the value stands at the point.
pub fn is_destroyed_at(f: &Function, p: PointId, value: ValueId) -> bool
    ensures { IsTrue result ↔ IsDestroy f.now p value }
{
    match item_inst(f, Item::Inst(p)) {
        None => false,
        Some(inst) => destroys(inst, value),
    }
}
