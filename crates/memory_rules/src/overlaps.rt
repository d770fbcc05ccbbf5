//! 608: two addresses that one call is handed overlap, and not both may be shared.

ghost use Rattle.std.specs.Prelude.{◌≡◌, ◌==◌, IfOk, None, cond, find, option_map};
ghost use Rattle.std.specs.List.{flat_map};
ghost use Rattle.std.specs.Option.{option_to_list};
ghost use Rattle.numbered_form.specs.PointChecks.inner.Faults.{least};
ghost use Rattle.memory_rules.specs.inner.StaticFaults.{faults_with, pair_faults};
ghost use Rattle.memory_rules.specs.Statics as statics;
ghost use Rattle.memory_rules.specs.Statics.{crosses, pair, pairs_of, second_of};

use crate::operations::operations_of;
use memory_rules_accesses::{Memory, Operated, Operation};
use numbered_form::{PointFault, lesser};
use sil_ast::{Exhausted, Inst, PointId, ValueId};
use sil_rules::Rule;
use std::alloc::Global;

/// An address that is handed to a call, and whether others may be handed its location too.
#[derive(Clone, Copy, PartialEq, Eq)]
pub(crate) struct HandedAddress {
    pub address: ValueId,
    pub shared: bool,
}

fn handed(operated: Operated) -> Option<HandedAddress>
    ensures { statics.handed operated ≡ option_to_list result }
{
    match operated.operation {
        Operation::Handed(row) => Some(HandedAddress {
            address: operated.address,
            shared: row.shared,
        }),
        Operation::FirstWrite
        | Operation::Read
        | Operation::Lend
        | Operation::Write
        | Operation::TrivialStore
        | Operation::Take => None,
    }
}

/// The addresses that are handed to a call, among what an instruction does to locations, in order.
pub(crate) fn handed_addresses(
    alloc: Global,
    operations: &[Operated],
) -> Result<Vec<HandedAddress>, Exhausted>
    ensures { IfOk result (λ found. found.items ≡ flat_map statics.handed operations.now) }
{
    let mut found = Vec::new(alloc);
    for operated in operations {
        if let Some(address) = handed(*operated) {
            found.push(address)?;
        }
    }
    Ok(found)
}

/// Whether the locations overlap, and not both may be shared.
fn do_clash(m: &Memory, first: HandedAddress, second: HandedAddress) -> bool
    ensures { result ≡ statics.do_clash m.now (pair first second) }
{
    !(first.shared && second.shared) && m.do_overlap(first.address, second.address)
}

/// The first of what was found and of the fault of two addresses, where they clash.
fn add_overlap(
    m: &Memory,
    point: PointId,
    first: HandedAddress,
    second: HandedAddress,
    found: Option<PointFault>,
) -> Option<PointFault>
    ensures { result ≡ least found (faults_with m.now point.block.0 point.index first second) }
{
    if do_clash(m, first, second) {
        return lesser(
            found,
            PointFault {
                rule: Rule::InoutOverlap,
                subject: first.address,
                point,
            },
        );
    }
    found
}

/// The same for an address and each of those behind it.
fn add_overlaps_with(
    m: &Memory,
    point: PointId,
    first: HandedAddress,
    later: &[HandedAddress],
    mut found: Option<PointFault>,
) -> Option<PointFault>
    ensures { result ≡ least found (flat_map (faults_with m.now point.block.0 point.index first) later.now) }
{
    for second in later {
        found = add_overlap(m, point, first, *second, found);
    }
    found
}

/// The same for all addresses that a call is handed.
pub(crate) fn add_overlaps(
    m: &Memory,
    point: PointId,
    addresses: &[HandedAddress],
    mut found: Option<PointFault>,
) -> Option<PointFault>
    ensures { result ≡ least found (flat_map (pair_faults m.now point.block.0 point.index) (pairs_of addresses.now)) }
{
    for (i, first) in addresses.iter().enumerate() {
        found = add_overlaps_with(m, point, *first, &addresses[i + 1..], found);
    }
    found
}

/// The first of the addresses behind one that clashes with it.
fn first_overlapping(m: &Memory, first: HandedAddress, later: &[HandedAddress]) -> Option<ValueId>
    ensures { result ≡ option_map statics.address_of (find (statics.clashes_with m.now first) later.now) }
{
    for second in later {
        if do_clash(m, first, *second) {
            return Some(second.address);
        }
    }
    None
}

/// The same, where the address is the subject.
fn first_crossing(
    m: &Memory,
    subject: ValueId,
    first: HandedAddress,
    later: &[HandedAddress],
) -> Option<ValueId>
    ensures { result ≡ cond (first.address.0 == subject.0) (option_map statics.address_of (find (statics.clashes_with m.now first) later.now)) None }
{
    if first.address.0 == subject.0 {
        return first_overlapping(m, first, later);
    }
    None
}

/// The first of the addresses that clashes with an earlier one, the subject.
fn first_crossed(m: &Memory, subject: ValueId, addresses: &[HandedAddress]) -> Option<ValueId>
    ensures { result ≡ option_map second_of (find (crosses m.now subject) (pairs_of addresses.now)) }
{
    for (i, first) in addresses.iter().enumerate() {
        let second = first_crossing(m, subject, *first, &addresses[i + 1..]);
        if second.is_some() {
            return second;
        }
    }
    None
}

/// Of the addresses that a call is handed the first that clashes with an earlier one, the subject.
pub(crate) fn crossed_with(
    alloc: Global,
    m: &Memory,
    inst: &Inst,
    subject: ValueId,
) -> Result<Option<ValueId>, Exhausted>
    ensures { IfOk result (λ other. other ≡ statics.crossed_with m.now inst.now subject) }
{
    let operations = operations_of(alloc, inst)?;
    let addresses = handed_addresses(alloc, operations.as_slice())?;
    Ok(first_crossed(m, subject, addresses.as_slice()))
}
