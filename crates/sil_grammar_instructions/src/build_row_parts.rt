//! Puts what a part of an instruction's row stands for where the instruction has it.

ghost use Rattle.std.specs.Prelude.{◌≡◌, ◌++◌, ◌≤◌, drop, length, map, IfOk, OnOk};
ghost use Rattle.instruction_table.specs.Forms.{ending_of, may_lack_operand};
ghost use Rattle.sil_grammar_tables.specs.Rows.{edges_by, symbols_of};
ghost use Rattle.sil_rules.specs.declared.limits.TheConstants.{ARGUMENTS};
ghost use Rattle.sil_rules.specs.declared.limit_word.LimitWord.TheVariants as limit;
ghost use Rattle.sil_grammar_values.specs.inner.PartFaults.{fault_of_part};
ghost use Rattle.sil_grammar_tree.specs.WrittenTree.Faults as faults;
ghost use Rattle.sil_grammar_tree.specs.WrittenTree.Places as placed;
ghost use Rattle.sil_grammar_values.specs.inner.RowMeaning.{bare_operand, edges_at, number_by, typed_by, with_part};

use crate::build_numbers::number_by;
use instruction_table::{Ending, Op, Part, detail_of, ending_of, may_lack_operand};
use sil_ast::{Boxed, Exhausted, List};
use sil_grammar_tree::{
    Fault, WrittenEdge, WrittenInst, WrittenOperand, WrittenToken, out_of_range, passed,
};
use sil_grammar_values::nothing::skip;
use sil_grammar_values::passed_on::{second_of_three, second_of_two, third_of_three};
use sil_grammar_values::prepended::Prepended;
use sil_grammar_values::value::Value;
use sil_rules::{LimitWord, limits};
use std::alloc::Global;

/// The fault of an instruction's operands that become too many.
fn too_many_operands(operands: &List<WrittenOperand>) -> Option<Fault>
    ensures { result ≡ faults.passed limit.Arguments ARGUMENTS (map placed.operand_place operands.now) }
{
    match operands.get(limits::ARGUMENTS) {
        Some(operand) => passed(LimitWord::Arguments, Some(operand.name.place)),
        None => None,
    }
}

fn bare_operand(name: WrittenToken) -> WrittenOperand
    ensures { result ≡ bare_operand name }
{
    WrittenOperand { name, ty: None }
}

/// Puts more operands behind some; behind none, in the same memory.
fn append(
    operands: &mut List<WrittenOperand>,
    more: Prepended<WrittenOperand>,
) -> Result<(), Exhausted>
    ensures { OnOk result (operands.new ≡ operands.old ++ more) }
{
    if operands.is_empty() {
        *operands = more.into_list();
        return Ok(());
    }
    let mut more = more;
    for _i in 0..more.len() {
        operands.push(more.pop_front())?;
    }
    Ok(())
}

/// Puts names behind operands, as operands.
fn append_bare(
    operands: &mut List<WrittenOperand>,
    names: Prepended<WrittenToken>,
) -> Result<(), Exhausted>
    ensures { OnOk result (operands.new ≡ operands.old ++ map bare_operand names) }
{
    let mut names = names;
    for _i in 0..names.len() {
        operands.push(bare_operand(names.pop_front()))?;
    }
    Ok(())
}

/// Puts an operand behind others, or one that may be left out.
fn append_typed(
    alloc: Global,
    op: Op,
    operands: &mut List<WrittenOperand>,
    value: Value,
) -> Result<(), Exhausted>
    ensures { OnOk result (operands.new ≡ operands.old ++ typed_by (may_lack_operand op) value) }
{
    if may_lack_operand(op) {
        append(operands, value.into_operands(alloc))
    } else {
        operands.push(value.into_operand())
    }
}

/// How many blocks a terminator names, for which room is made at once.
fn count_of_branches(ending: Ending) -> usize {
    match ending {
        Ending::OneBranch => 1,
        Ending::TwoBranches => 2,
        Ending::Cases | Ending::Inside | Ending::Return | Ending::Unreachable => 0,
    }
}

/// The blocks that a terminator goes to, from the first values.
fn edges(
    alloc: Global,
    ending: Ending,
    values: &mut Prepended<Value>,
) -> Result<List<WrittenEdge>, Exhausted>
    requires { length (edges_by ending) ≤ length values.old }
    ensures edges { IfOk result (λ edges. edges ≡ edges_at ending 0 values.old) }
    ensures rest { OnOk result (values.new ≡ drop (length (edges_by ending)) values.old) }
{
    let mut edges = List::with_capacity(alloc, count_of_branches(ending))?;
    match ending {
        Ending::OneBranch => edges.push(values.pop_front().into_edge(alloc))?,
        Ending::TwoBranches => {
            edges.push(values.pop_front().into_edge(alloc))?;
            skip(values);
            edges.push(values.pop_front().into_edge(alloc))?;
        }
        Ending::Cases => return Ok(values.pop_front().into_edges(alloc).into_list()),
        Ending::Inside | Ending::Return | Ending::Unreachable => {}
    }
    Ok(edges)
}

/// Puts a part of an instruction's row into the instruction, from the first values, and answers the fault that shows there.
#[tactic(auto, unfolding(sil_grammar_tables::specs::Rows::symbols_of, sil_grammar_tables::specs::Rows::edges_of))]
pub(crate) fn put_part(
    alloc: Global,
    op: Op,
    part: Part,
    values: &mut Prepended<Value>,
    inst: &mut WrittenInst,
) -> Result<Option<Fault>, Exhausted>
    requires { length (symbols_of op part) ≤ length values.old }
    ensures inst { OnOk result (inst.new ≡ with_part op part 0 values.old inst.old) }
    ensures fault { IfOk result (λ fault. fault ≡ fault_of_part op part 0 values.old inst.old) }
    ensures rest { OnOk result (values.new ≡ drop (length (symbols_of op part)) values.old) }
{
    let mut fault = None;
    match part {
        Part::Flags => {
            let flags = values.pop_front().into_flags();
            inst.lexical = flags.lexical;
            inst.var_decl = flags.var_decl;
        }
        Part::Qualifier => inst.qualifier = values.pop_front().into_qualifier(),
        Part::Typed => append_typed(alloc, op, &mut inst.operands, values.pop_front())?,
        Part::Bare => inst
            .operands
            .push(bare_operand(values.pop_front().into_token()))?,
        Part::To => skip(values),
        Part::TypeWord => inst.ty = Some(second_of_two(values).into_type().ty),
        Part::Member => inst.member = Some(values.pop_front().into_member(alloc)?),
        Part::Number => {
            let token = values.pop_front().into_token();
            inst.number = number_by(detail_of(op), &inst.ty, token.text.as_slice());
            fault = out_of_range(inst.number, token.place);
        }
        Part::Text => {
            let text = values.pop_front().into_text(alloc)?;
            inst.text = Some(Boxed::new(alloc, text)?);
        }
        Part::Callee => {
            let callee = values.pop_front().into_token();
            inst.function = Some(Boxed::new(alloc, callee)?);
        }
        Part::BareArgs => {
            append_bare(
                &mut inst.operands,
                second_of_three(values).into_tokens(alloc),
            )?;
            fault = too_many_operands(&inst.operands);
        }
        Part::TypedArgs => {
            append(
                &mut inst.operands,
                second_of_three(values).into_operands(alloc),
            )?;
            fault = too_many_operands(&inst.operands);
        }
        Part::ResultType => inst.ty = Some(third_of_three(values).into_type().ty),
        Part::SignatureWord => {
            let signature = third_of_three(values).into_signature(alloc);
            inst.signature = Some(Boxed::new(alloc, signature)?);
        }
        Part::Debug => inst.debug = values.pop_front().into_debug(),
        Part::Edges => inst.edges = edges(alloc, ending_of(op), values)?,
    }
    Ok(fault)
}
