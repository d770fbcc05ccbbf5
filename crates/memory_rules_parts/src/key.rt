//! Keys: what an access has in common with each part to which it means something.

ghost use Rattle.std.specs.Prelude.{◌≡◌, ◌++◌, OnOk};
ghost use Rattle.std.specs.List.{flat_map};
ghost use Rattle.std.specs.Option.{option_copied};
ghost use Rattle.ownership_kinds_chains.specs.OwnershipMarks.Known.{facts_of};
ghost use Rattle.memory_rules_parts.specs.inner.Keys as keys;

use crate::loans::writes;
use crate::part::Part;
use memory_rules_accesses::{Access, Cell, Location, Memory, Operation};
use ownership_kinds_chains::Kinds;
use sil_ast::{Exhausted, ValueId};

/// Something that accesses and parts have in common.
#[derive(Clone, Copy, Debug, PartialEq, Eq)]
pub(crate) enum Key {
    /// The value that begins, ends, is allocated, deallocated or given, and turns a switch by that.
    Turned(ValueId),
    /// The value that is an operand, or the object that is built through one of its bases.
    Named(ValueId),
    /// The cell whose contents are operated on.
    Operated(Cell),
    /// The root that is written or deallocated, and lent.
    Written(ValueId),
}

fn add_root(found: &mut Vec<Key>, location: Option<&Location>) -> Result<(), Exhausted>
    ensures { OnOk result (found.new.items ≡ found.old.items ++ keys.root_key (option_copied location.entry)) }
{
    if let Some(l) = location {
        found.push(Key::Written(l.root))?;
    }
    Ok(())
}

/// Adds the keys of a part.
pub(crate) fn add_keys_of_part(
    found: &mut Vec<Key>,
    m: &Memory,
    part: Part,
) -> Result<(), Exhausted>
    ensures { OnOk result (found.new.items ≡ found.old.items ++ keys.keys_of_part m.now part) }
{
    match part {
        Part::Contents { cell, .. } => {
            found.push(Key::Turned(cell.subject))?;
            found.push(Key::Operated(cell))?;
        }
        Part::Allocation { slot } => found.push(Key::Turned(slot))?,
        Part::Lent { scope, address } => {
            found.push(Key::Turned(scope))?;
            add_root(found, m.location(address))?;
        }
        Part::Building { object, field } => {
            found.push(Key::Turned(object))?;
            found.push(Key::Named(object))?;
            found.push(Key::Operated(Cell {
                subject: object,
                field: Some(field),
            }))?;
        }
        Part::InScope { address, scope } => {
            found.push(Key::Turned(scope))?;
            found.push(Key::Named(address))?;
        }
        Part::InSlot { address, slot } => {
            found.push(Key::Turned(slot))?;
            found.push(Key::Named(address))?;
        }
    }
    Ok(())
}

fn add_keys_at(
    found: &mut Vec<Key>,
    m: &Memory,
    operation: Operation,
    location: Option<&Location>,
) -> Result<(), Exhausted>
    ensures { OnOk result (found.new.items ≡ found.old.items ++ keys.keys_at m.now operation (option_copied location.entry)) }
{
    let Some(l) = location else {
        return Ok(());
    };
    found.push(Key::Operated(m.cell(l.root)))?;
    if writes(true, operation) {
        found.push(Key::Written(l.root))?;
    }
    Ok(())
}

fn add_built(found: &mut Vec<Key>, m: &Memory, bases: &[ValueId]) -> Result<(), Exhausted>
    ensures { OnOk result (found.new.items ≡ found.old.items ++ flat_map (keys.built_key m.now) bases.now) }
{
    for base in bases {
        if let Some(object) = m.object_built(*base) {
            found.push(Key::Named(object))?;
        }
    }
    Ok(())
}

/// Adds the keys of an access.
pub(crate) fn add_keys_of_access(
    found: &mut Vec<Key>,
    m: &Memory,
    k: &Kinds,
    access: Access,
) -> Result<(), Exhausted>
    ensures { OnOk result (found.new.items ≡ found.old.items ++ keys.keys_of_access m.now (facts_of k.now) access) }
{
    match access {
        Access::Ends(v) | Access::Begins(v) => found.push(Key::Turned(v))?,
        Access::Allocates(v) | Access::Given(v, _) => found.push(Key::Turned(v))?,
        Access::Deallocates(v) => {
            found.push(Key::Turned(v))?;
            add_root(found, m.location(v))?;
        }
        Access::Does(x) => add_keys_at(found, m, x.operation, m.location(x.address))?,
        Access::Mentions { value, .. } => {
            found.push(Key::Named(value))?;
            add_built(found, m, k.bases(value))?;
        }
    }
    Ok(())
}
