//! 302: a chain returns to the value at which it began.

ghost use Rattle.std.specs.Prelude.{◌≡◌};
ghost use Rattle.std.specs.List.{flat_map};
ghost use Rattle.ownership_kinds.specs.inner.Faults as faults;
ghost use Rattle.numbered_form.specs.PointChecks.inner.Faults.{least};
ghost use Rattle.ownership_kinds.specs.inner.Faults.{ring_faults};

use numbered_form::{PointFault, lesser};
use sil_ast::{PointId, ValueId};
use sil_rules::Rule;

fn is_one(ring: Option<ValueId>, value: ValueId) -> bool
    ensures { result ≡ faults.is_one ring value }
{
    match ring {
        None => false,
        Some(first) => first.0 == value.0,
    }
}

/// The first of what was found and of the fault of a value that is defined at the point, where it is the first on a ring.
pub(crate) fn add_ring(
    ring: Option<ValueId>,
    point: PointId,
    value: ValueId,
    found: Option<PointFault>,
) -> Option<PointFault>
    ensures { result ≡ least found (ring_faults ring point.block.0 point.index value) }
{
    if is_one(ring, value) {
        return lesser(
            found,
            PointFault {
                rule: Rule::CyclicForwarding,
                subject: value,
                point,
            },
        );
    }
    found
}

/// The same for all values that are defined at the point.
pub(crate) fn add_rings(
    ring: Option<ValueId>,
    point: PointId,
    values: &[ValueId],
    mut found: Option<PointFault>,
) -> Option<PointFault>
    ensures { result ≡ least found (flat_map (ring_faults ring point.block.0 point.index) values.now) }
{
    for value in values {
        found = add_ring(ring, point, *value, found);
    }
    found
}
