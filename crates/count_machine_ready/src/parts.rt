//! The parts of an instruction.

ghost use Rattle.std.specs.Prelude.{◌≡◌, ◌<◌, IfOk, Some, length, map, option_map, slice_get};
ghost use Rattle.holder_model.specs.Effects as effects;
ghost use Rattle.holder_model.specs.memory_rules_accesses.Sources.{element_place, member_place};
ghost use Rattle.holder_model.specs.RunTyping.EndForms.{value_in};
ghost use Rattle.count_machine_ready.specs.inner.Bodies.{IsBody, local};
ghost use Rattle.count_machine_model.specs.ReadyCode.ReadyOps.{operands_of};

use crate::body::Body;
use count_machine_model::Local;
use holder_model::{EFFECTS, RowEffect};
use instruction_table::{Detail, Op, detail_of};
use sil_ast::{Exhausted, Inst, List, Operand, ValueId};
use sil_types::TypeTable;
use std::alloc::Global;

/// What an instruction does in a run.
pub(crate) fn effect_of(op: Op) -> RowEffect
    ensures { result ≡ effects.effect_of op }
{
    EFFECTS[op as usize]
}

/// The value of the operand with this number.
pub(crate) fn operand(inst: &Inst, k: usize) -> ValueId
    requires { k < length inst.now.operands }
    ensures { slice_get (operands_of inst.now) k ≡ Some result }
{
    inst.operands.as_slice()[k].value
}

/// The value of the operand with this number, if there is one.
pub(crate) fn value_at(inst: &Inst, k: usize) -> Option<ValueId>
    ensures { result ≡ slice_get (operands_of inst.now) k }
{
    match inst.operands.get(k) {
        Some(operand) => Some(operand.value),
        None => None,
    }
}

/// Where the value of the operand with this number stands, if there is one.
pub(crate) fn local_at(body: &Body<'_>, inst: &Inst, k: usize) -> Option<Local>
    requires { IsBody body.now }
    ensures { result ≡ option_map (local body.now) (slice_get (operands_of inst.now) k) }
{
    match value_at(inst, k) {
        Some(value) => Some(body.local(value)),
        None => None,
    }
}

/// The first result.
pub(crate) fn first_result(inst: &Inst) -> ValueId
    requires { 0 < length inst.now.results }
    ensures { slice_get inst.now.results 0 ≡ Some result }
{
    inst.results.as_slice()[0]
}

/// The values of some operands.
pub(crate) fn values_of(alloc: Global, operands: &[Operand]) -> Result<List<ValueId>, Exhausted>
    ensures { IfOk result (λ values. values ≡ map value_in operands.now) }
{
    let mut values = List::with_capacity(alloc, operands.len())?;
    for operand in operands {
        values.push(operand.value)?;
    }
    Ok(values)
}

/// Where the values of some operands stand.
pub(crate) fn locals_of(
    alloc: Global,
    body: &Body<'_>,
    operands: &[Operand],
) -> Result<List<Local>, Exhausted>
    requires { IsBody body.now }
    ensures { IfOk result (λ locals. locals ≡ map (local body.now) (map value_in operands.now)) }
{
    let mut locals = List::with_capacity(alloc, operands.len())?;
    for operand in operands {
        locals.push(body.local(operand.value))?;
    }
    Ok(locals)
}

/// The place of the field that an instruction names.
pub(crate) fn field_number(table: &TypeTable, inst: &Inst) -> Option<u32>
    ensures { result ≡ member_place table.now inst.now.member }
{
    match &inst.member {
        Some(member) => {
            let member = member.get();
            match table.field(&member.owner, &member.name) {
                Some(found) => Some(found.index),
                None => None,
            }
        }
        None => None,
    }
}

/// The number of the tuple's element that an instruction names.
fn element_number(number: Option<i64>) -> Option<usize>
    ensures { result ≡ element_place number }
{
    match number {
        Some(number) => match usize::try_from(number) {
            Ok(index) => Some(index),
            Err(_) => None,
        },
        None => None,
    }
}

/// The place of the member that an instruction names.
pub(crate) fn part_number(table: &TypeTable, inst: &Inst) -> Option<usize>
    ensures { result ≡ effects.part_number table.now inst.now }
{
    match detail_of(inst.op) {
        Detail::Field => match field_number(table, inst) {
            Some(place) => Some(place as usize),
            None => None,
        },
        Detail::Element => element_number(inst.number),
        Detail::NoDetail | Detail::Literal | Detail::Operation | Detail::Message | Detail::Case =>
            None,
    }
}
