//! The locations that addresses name.

ghost use Rattle.std.specs.Prelude.{◌≡◌, ◌≤◌, ◌^◌, IfOk, length};
ghost use Rattle.std.specs.Option.{option_copied};
ghost use Rattle.memory_rules_accesses.specs.inner.Kept as kept;
ghost use Rattle.memory_rules_accesses.specs.Locations as spec;
ghost use Rattle.memory_rules_accesses.specs.Sources as told;

use crate::location::Location;
use crate::source::Source;
use sil_ast::{Exhausted, List, ValueId};
use std::alloc::Global;

/// What a value is to memory, and nothing where there is no such value.
pub(crate) fn source_at(sources: &[Source], value: ValueId) -> Source
    ensures { result ≡ told.source_at sources.now value }
{
    match sources.get(value.0 as usize) {
        None => Source::Other,
        Some(source) => *source,
    }
}

/// The value from which a value comes by upcasts alone. The time goes with the number of upcasts.
pub(crate) fn upcast_from(sources: &[Source], value: ValueId) -> ValueId
    ensures { result ≡ spec.upcast_from sources.now value }
{
    let mut at = value;
    for _ in 0..sources.len() {
        let Source::Upcast { of } = source_at(sources, at) else {
            return at;
        };
        at = of;
    }
    at
}

/// The location that a table has of an address.
pub(crate) fn location_at(locations: &[Option<Location>], address: ValueId) -> Option<&Location>
    ensures { option_copied result ≡ kept.location_at locations.now address }
{
    match locations.get(address.0 as usize) {
        Some(Some(location)) => Some(location),
        _ => None,
    }
}

/// The location with this root, to which the steps lead, the last step first.
fn location_behind(root: ValueId, mut steps: Vec<usize>) -> Location
    ensures { result ≡ kept.behind steps.items (spec.whole root) }
{
    steps.reverse();
    Location {
        root,
        path: List::from_vec(steps),
    }
}

/// The location that an address names. The time goes with the number of steps from its root.
fn location_of(
    alloc: Global,
    sources: &[Source],
    address: ValueId,
) -> Result<Option<Location>, Exhausted>
    ensures { IfOk result (λ location. location ≡ spec.location_of sources.now address) }
{
    let mut steps = Vec::new(alloc);
    let mut at = address;
    for _ in 0..sources.len() {
        match source_at(sources, at) {
            Source::Part { of, index } => {
                steps.push(index)?;
                at = of;
            }
            Source::Slot { .. } | Source::Argument { .. } | Source::Field { .. } => {
                return Ok(Some(location_behind(at, steps)));
            }
            Source::Object { .. }
            | Source::Borrow { .. }
            | Source::Upcast { .. }
            | Source::Loan { .. }
            | Source::Other => return Ok(None),
        }
    }
    Ok(None)
}

/// The location that each value names, by the values' numbers.
pub(crate) fn locations_of(
    alloc: Global,
    sources: &[Source],
) -> Result<List<Option<Location>>, Exhausted>
    requires { length sources.now ≤ 2 ^ 32 }
    ensures { IfOk result (λ locations. locations ≡ kept.locations_of sources.now) }
{
    let mut locations = List::with_capacity(alloc, sources.len())?;
    for n in 0..sources.len() {
        let location = location_of(alloc, sources, ValueId(n as u32))?;
        locations.push(location)?;
    }
    Ok(locations)
}
