//! What one item does, step by step.

ghost use Rattle.std.specs.Prelude.{◌≡◌, ◌++◌, OnOk, Some, map};
ghost use Rattle.std.specs.List.{flat_map};
ghost use Rattle.std.specs.Option.{option_copied, option_to_list};
ghost use Rattle.memory_rules_accesses.specs.Accesses as spec;
ghost use Rattle.memory_rules_accesses.specs.declared.access.Access.TheVariants.{Deallocates};
ghost use Rattle.memory_rules_accesses.specs.inner.Done.{does_among, done_at};

use crate::access::{Access, Operated};
use crate::columns::{AccessKind, Allowance, access_kind_of, allowance_of};
use crate::memory::Memory;
use crate::operations::{add_addresses, deallocates, operation_at};
use crate::source::Source;
use ownership_kinds_chains::{Mark, MarkSort};
use sil_ast::{Exhausted, Inst, Qualifier, ValueId};
use sil_cfg_items::Taken;

pub(crate) fn add_ends(accesses: &mut Vec<Access>, marks: &[Mark]) -> Result<(), Exhausted>
    ensures { OnOk result (accesses.new.items ≡ accesses.old.items ++ flat_map spec.ended marks.now) }
{
    for mark in marks {
        if matches!(mark.sort, MarkSort::End) {
            accesses.push(Access::Ends(mark.subject))?;
        }
    }
    Ok(())
}

pub(crate) fn add_begins(accesses: &mut Vec<Access>, marks: &[Mark]) -> Result<(), Exhausted>
    ensures { OnOk result (accesses.new.items ≡ accesses.old.items ++ flat_map spec.begun marks.now) }
{
    for mark in marks {
        if matches!(mark.sort, MarkSort::Begin) {
            accesses.push(Access::Begins(mark.subject))?;
        }
    }
    Ok(())
}

fn add_mentioned(
    accesses: &mut Vec<Access>,
    allowance: Allowance,
    taken: &[Taken],
) -> Result<(), Exhausted>
    ensures { OnOk result (accesses.new.items ≡ accesses.old.items ++ map (spec.mentioned allowance) taken.now) }
{
    for one in taken {
        accesses.push(Access::Mentions {
            value: one.value,
            allowance,
        })?;
    }
    Ok(())
}

/// Adds the operands of an item's instruction, with the unfinished objects that it takes.
pub(crate) fn add_mentions(
    accesses: &mut Vec<Access>,
    inst: Option<&Inst>,
    taken: &[Taken],
) -> Result<(), Exhausted>
    ensures { OnOk result (accesses.new.items ≡ accesses.old.items ++ spec.mentions_of (option_copied inst.entry) taken.now) }
{
    let Some(inst) = inst else {
        return Ok(());
    };
    if deallocates(inst) {
        return Ok(());
    }
    add_mentioned(accesses, allowance_of(inst.op), taken)
}

/// Adds what is done at each of the operands.
fn add_operated(
    accesses: &mut Vec<Access>,
    kind: AccessKind,
    qualifier: Qualifier,
    taken: &[Taken],
) -> Result<(), Exhausted>
    ensures { OnOk result (accesses.new.items ≡ accesses.old.items ++ flat_map (done_at kind qualifier) taken.now) }
{
    for one in taken {
        if let Some(operation) = operation_at(kind, qualifier, *one) {
            accesses.push(Access::Does(Operated {
                address: one.value,
                operation,
            }))?;
        }
    }
    Ok(())
}

/// Adds what an item's instruction does to locations, if these are the item's operands.
pub(crate) fn add_does(
    accesses: &mut Vec<Access>,
    inst: Option<&Inst>,
    taken: &[Taken],
) -> Result<(), Exhausted>
    ensures { OnOk result (accesses.new.items ≡ accesses.old.items ++ does_among (option_copied inst.entry) taken.now) }
{
    let Some(inst) = inst else {
        return Ok(());
    };
    add_operated(accesses, access_kind_of(inst.op), inst.qualifier, taken)
}

/// Adds the deallocations of the addresses.
fn add_deallocated(accesses: &mut Vec<Access>, addresses: &[ValueId]) -> Result<(), Exhausted>
    ensures { OnOk result (accesses.new.items ≡ accesses.old.items ++ map Deallocates addresses.now) }
{
    for address in addresses {
        accesses.push(Access::Deallocates(*address))?;
    }
    Ok(())
}

/// Adds what an item's `dealloc_stack` has as its operand.
pub(crate) fn add_deallocations(
    accesses: &mut Vec<Access>,
    inst: Option<&Inst>,
) -> Result<(), Exhausted>
    ensures { OnOk result (accesses.new.items ≡ accesses.old.items ++ spec.deallocations_of (option_copied inst.entry)) }
{
    let Some(inst) = inst else {
        return Ok(());
    };
    if !deallocates(inst) {
        return Ok(());
    }
    let mut addresses = Vec::new(*accesses.allocator());
    add_addresses(&mut addresses, inst)?;
    add_deallocated(accesses, addresses.as_slice())
}

/// What the item does to memory that defines the value.
fn made_by(m: &Memory, value: ValueId) -> Option<Access>
    ensures { spec.made m.now value ≡ option_to_list result }
{
    match m.source(value) {
        Source::Slot { .. } | Source::Object { .. } => Some(Access::Allocates(value)),
        Source::Argument { row, .. } => Some(Access::Given(value, row.before)),
        Source::Borrow { .. }
        | Source::Upcast { .. }
        | Source::Loan { .. }
        | Source::Field { .. }
        | Source::Part { .. }
        | Source::Other => None,
    }
}

/// Adds what is allocated and given: those of the values that are defined.
pub(crate) fn add_made(
    accesses: &mut Vec<Access>,
    m: &Memory,
    defined: &[ValueId],
) -> Result<(), Exhausted>
    ensures { OnOk result (accesses.new.items ≡ accesses.old.items ++ flat_map (spec.made m.now) defined.now) }
{
    for value in defined {
        if let Some(access) = made_by(m, *value) {
            accesses.push(access)?;
        }
    }
    Ok(())
}
