//! 611: an instruction does what the location at an address lacks, or deallocates what is no slot.

ghost use Rattle.std.specs.Prelude.{◌≡◌};
ghost use Rattle.std.specs.List.{flat_map};
ghost use Rattle.numbered_form.specs.PointChecks.inner.Faults.{least};
ghost use Rattle.memory_rules.specs.inner.StaticFaults.{no_slot_faults, operated_faults};
ghost use Rattle.memory_rules.specs.Statics as statics;

use memory_rules_accesses::{Memory, Operated};
use numbered_form::{PointFault, lesser};
use sil_ast::{PointId, ValueId};
use sil_rules::Rule;

/// Whether the location at the address lacks the operation.
fn lacks(m: &Memory, operated: Operated) -> bool
    ensures { result ≡ statics.lacks m.now operated }
{
    match m.location(operated.address) {
        None => false,
        Some(location) => !m.has_operation(location, operated.operation),
    }
}

/// The first of what was found and of the fault of something that is done to a location.
fn add_operated(
    m: &Memory,
    point: PointId,
    operated: Operated,
    found: Option<PointFault>,
) -> Option<PointFault>
    ensures { result ≡ least found (operated_faults m.now point.block.0 point.index operated) }
{
    if lacks(m, operated) {
        return lesser(
            found,
            PointFault {
                rule: Rule::PartialAccess,
                subject: operated.address,
                point,
            },
        );
    }
    found
}

/// The same for all that an instruction does to locations.
pub(crate) fn add_lacking(
    m: &Memory,
    point: PointId,
    operations: &[Operated],
    mut found: Option<PointFault>,
) -> Option<PointFault>
    ensures { result ≡ least found (flat_map (operated_faults m.now point.block.0 point.index) operations.now) }
{
    for operated in operations {
        found = add_operated(m, point, *operated, found);
    }
    found
}

fn is_no_slot(m: &Memory, value: ValueId) -> bool
    ensures { result ≡ statics.is_no_slot m.now value }
{
    !m.is_slot(value)
}

/// The first of what was found and of the fault of an address that is deallocated, where it is no slot.
fn add_no_slot(
    m: &Memory,
    point: PointId,
    address: ValueId,
    found: Option<PointFault>,
) -> Option<PointFault>
    ensures { result ≡ least found (no_slot_faults m.now point.block.0 point.index address) }
{
    if is_no_slot(m, address) {
        return lesser(
            found,
            PointFault {
                rule: Rule::PartialAccess,
                subject: address,
                point,
            },
        );
    }
    found
}

/// The same for all addresses that an instruction deallocates.
pub(crate) fn add_no_slots(
    m: &Memory,
    point: PointId,
    addresses: &[ValueId],
    mut found: Option<PointFault>,
) -> Option<PointFault>
    ensures { result ≡ least found (flat_map (no_slot_faults m.now point.block.0 point.index) addresses.now) }
{
    for address in addresses {
        found = add_no_slot(m, point, *address, found);
    }
    found
}
