//! All parts of a function, in the order of their subjects.

ghost use Rattle.std.specs.Prelude.{◌≡◌, ◌++◌, IfOk, OnOk};
ghost use Rattle.std.specs.List.{flat_map, range_with_len};
ghost use Rattle.memory_rules_accesses.specs.Locations.{location_of};
ghost use Rattle.memory_rules_accesses.specs.Sources.{source_at};
ghost use Rattle.ownership_kinds_chains.specs.OwnershipMarks.Known.{facts_of};
ghost use Rattle.memory_rules_parts.specs.Parts as parts;

use crate::part::Part;
use argument_conventions::AddressRow;
use memory_rules_accesses::{Cell, Memory, Source};
use ownership_kinds_chains::Kinds;
use sil_ast::{Exhausted, ValueId};
use std::alloc::Global;

fn whole_cell(value: ValueId) -> Cell
    ensures { result ≡ parts.whole_cell value }
{
    Cell {
        subject: value,
        field: None,
    }
}

fn is_scope(m: &Memory, value: ValueId) -> bool
    ensures { result ≡ parts.is_scope m.now value }
{
    match m.source(value) {
        Source::Borrow { .. } | Source::Loan { .. } => true,
        Source::Slot { .. } | Source::Argument { .. } | Source::Object { .. } => false,
        Source::Upcast { .. } | Source::Field { .. } | Source::Part { .. } => false,
        Source::Other => false,
    }
}

/// What a field holds, and whether it is still to be written.
fn add_field(found: &mut Vec<Part>, object: ValueId, field: usize) -> Result<(), Exhausted>
    ensures { OnOk result (found.new.items ≡ found.old.items ++ parts.field_parts object field) }
{
    found.push(Part::Contents {
        cell: Cell {
            subject: object,
            field: Some(field),
        },
        trivial: false,
        left: None,
    })?;
    found.push(Part::Building { object, field })?;
    Ok(())
}

/// The parts of each field of an object.
fn add_fields(found: &mut Vec<Part>, object: ValueId, fields: usize) -> Result<(), Exhausted>
    ensures { OnOk result (found.new.items ≡ found.old.items ++ flat_map (parts.field_parts object) (range_with_len 0 fields)) }
{
    for field in 0..fields {
        add_field(found, object, field)?;
    }
    Ok(())
}

/// One part for each scope among an address's bases.
fn add_scopes(
    found: &mut Vec<Part>,
    m: &Memory,
    address: ValueId,
    bases: &[ValueId],
) -> Result<(), Exhausted>
    ensures { OnOk result (found.new.items ≡ found.old.items ++ parts.scope_parts m.now address bases.now) }
{
    for base in bases {
        if is_scope(m, *base) {
            found.push(Part::InScope {
                address,
                scope: *base,
            })?;
        }
    }
    Ok(())
}

/// One for the slot that is an address's root.
fn add_slot(found: &mut Vec<Part>, m: &Memory, address: ValueId) -> Result<(), Exhausted>
    ensures { OnOk result (found.new.items ≡ found.old.items ++ parts.slot_part_at m.now address (location_of m.now address)) }
{
    match m.location(address) {
        None => Ok(()),
        Some(l) => match m.source(l.root) {
            Source::Slot { .. } => {
                found.push(Part::InSlot {
                    address,
                    slot: l.root,
                })?;
                Ok(())
            }
            Source::Argument { .. } | Source::Object { .. } | Source::Borrow { .. } => Ok(()),
            Source::Upcast { .. } | Source::Loan { .. } | Source::Other => Ok(()),
            Source::Field { .. } | Source::Part { .. } => Ok(()),
        },
    }
}

/// The parts of an address: its scopes, and its slot.
fn add_address(
    found: &mut Vec<Part>,
    m: &Memory,
    k: &Kinds,
    address: ValueId,
) -> Result<(), Exhausted>
    ensures { OnOk result (found.new.items ≡ found.old.items ++ parts.address_parts m.now (facts_of k.now address) address) }
{
    add_scopes(found, m, address, k.bases(address))?;
    add_slot(found, m, address)?;
    Ok(())
}

/// What a slot holds, whether it is allocated, and its parts as an address.
fn add_slot_parts(
    found: &mut Vec<Part>,
    m: &Memory,
    k: &Kinds,
    slot: ValueId,
    trivial: bool,
) -> Result<(), Exhausted>
    ensures { OnOk result (found.new.items ≡ found.old.items ++ parts.slot_parts m.now (facts_of k.now slot) slot trivial) }
{
    found.push(Part::Contents {
        cell: whole_cell(slot),
        trivial,
        left: None,
    })?;
    found.push(Part::Allocation { slot })?;
    add_address(found, m, k, slot)?;
    Ok(())
}

/// What an argument holds, unless it may be shared: then it is full on all walks.
fn add_argument(
    found: &mut Vec<Part>,
    value: ValueId,
    row: AddressRow,
    trivial: bool,
) -> Result<(), Exhausted>
    ensures { OnOk result (found.new.items ≡ found.old.items ++ parts.argument_parts value row trivial) }
{
    if !row.shared {
        found.push(Part::Contents {
            cell: whole_cell(value),
            trivial,
            left: Some(row.after),
        })?;
    }
    Ok(())
}

/// The parts whose subject is the value.
fn add_parts(found: &mut Vec<Part>, m: &Memory, k: &Kinds, value: ValueId) -> Result<(), Exhausted>
    ensures { OnOk result (found.new.items ≡ found.old.items ++ parts.parts_by m.now (facts_of k.now value) value (source_at m.now value)) }
{
    match m.source(value) {
        Source::Slot { trivial } => add_slot_parts(found, m, k, value, trivial),
        Source::Argument { row, trivial } => add_argument(found, value, row, trivial),
        Source::Object { fields } => add_fields(found, value, fields),
        Source::Borrow { .. } | Source::Upcast { .. } | Source::Other => Ok(()),
        Source::Loan { of } => {
            found.push(Part::Lent {
                scope: value,
                address: of,
            })?;
            Ok(())
        }
        Source::Field { .. } | Source::Part { .. } => { add_address(found, m, k, value) }
    }
}

/// All parts of the function whose memory it is, by their subjects.
#[tactic(auto, using(crate::proofs::Ranges::flat_map_one_more))]
pub(crate) fn parts_of(alloc: Global, m: &Memory, k: &Kinds) -> Result<Vec<Part>, Exhausted>
    ensures { IfOk result (λ v. v.items ≡ parts.parts_of m.now (facts_of k.now)) }
{
    let mut found = Vec::with_capacity(alloc, m.values())?;
    for n in 0..m.values() {
        add_parts(&mut found, m, k, ValueId(n as u32))?;
    }
    Ok(found)
}
