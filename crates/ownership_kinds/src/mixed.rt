//! 303: one forwarding instruction has Owned and Guaranteed operands.

ghost use Rattle.std.specs.Prelude.{◌≡◌, find, map};
ghost use Rattle.std.specs.List.{list_any};
ghost use Rattle.instruction_table.specs.Forms as form;
ghost use Rattle.numbered_form.specs.ValueTables.FirstValue.{value_of};
ghost use Rattle.numbered_form.specs.PointChecks.inner.Faults.{least};
ghost use Rattle.ownership_kinds.specs.inner.Faults.{mixed_faults};
ghost use Rattle.ownership_kinds.specs.inner.Known.{kind_told};
ghost use Rattle.ownership_kinds.specs.Statics as statics;

use crate::kinds::{is_guaranteed, is_owned};
use instruction_table::{Op, ResultKind, result_kind_of};
use numbered_form::{PointFault, lesser};
use ownership_kinds_chains::{Facts, kind_of};
use sil_ast::{Inst, Operand, PointId, ValueId};
use sil_rules::Rule;

/// Whether an instruction's results are forwarded from its operands.
fn forwards(op: Op) -> bool
    ensures { result ≡ statics.forwards_by (form.result_kind_of op) }
{
    match result_kind_of(op) {
        ResultKind::ForwardedResult => true,
        ResultKind::NoneResult
        | ResultKind::OwnedResult
        | ResultKind::ScopeResult
        | ResultKind::AddressResult
        | ResultKind::OperandResult => false,
    }
}

fn any_owned(facts: &[Option<Facts>], operands: &[Operand]) -> bool
    ensures { result ≡ list_any (λ o. statics.is_owned (kind_told facts.now o.value)) operands.now }
{
    for operand in operands {
        if is_owned(kind_of(facts, operand.value)) {
            return true;
        }
    }
    false
}

fn first_guaranteed(facts: &[Option<Facts>], operands: &[Operand]) -> Option<ValueId>
    ensures { result ≡ find (λ v. statics.is_guaranteed (kind_told facts.now v)) (map value_of operands.now) }
{
    for operand in operands {
        if is_guaranteed(kind_of(facts, operand.value)) {
            return Some(operand.value);
        }
    }
    None
}

/// The first Guaranteed operand of a forwarding instruction that has an Owned one too.
fn mixed_operand(facts: &[Option<Facts>], inst: &Inst) -> Option<ValueId>
    ensures { result ≡ statics.mixed_operand (kind_told facts.now) inst.now }
{
    let operands = inst.operands.as_slice();
    if forwards(inst.op) && any_owned(facts, operands) {
        return first_guaranteed(facts, operands);
    }
    None
}

/// The first of what was found and of this fault of the instruction.
pub(crate) fn add_mixed(
    facts: &[Option<Facts>],
    point: PointId,
    inst: &Inst,
    found: Option<PointFault>,
) -> Option<PointFault>
    ensures { result ≡ least found (mixed_faults (kind_told facts.now) point.block.0 point.index inst.now) }
{
    match mixed_operand(facts, inst) {
        None => found,
        Some(subject) => lesser(
            found,
            PointFault {
                rule: Rule::MixedForwarding,
                subject,
                point,
            },
        ),
    }
}
