//! Values that stand behind what they are made from.

ghost use Rattle.std.specs.Prelude.{◌<◌, All};
ghost use Rattle.std.specs.Bool.{OnTrue};
ghost use Rattle.ownership_kinds_chains.specs.OwnershipChains.Chains.{HasNoRing};

use crate::ownership_chains::definition::Definition;
use sil_ast::ValueId;

/// Whether all values have lesser numbers than this one.
fn are_before(values: &[ValueId], number: usize) -> bool
    ensures { OnTrue result (All (λ w. w.0 < number) values.now) }
{
    for value in values {
        if value.0 as usize >= number {
            return false;
        }
    }
    true
}

/// Whether each value has its operands before it, as where no block hands one of them back to a block before it: then
/// the order of the numbers is as good as any, and no value is on a ring.
pub(crate) fn are_in_order(defs: &[Definition]) -> bool
    ensures { OnTrue result (HasNoRing defs.now) }
{
    for number in 0..defs.len() {
        if !are_before(defs[number].operands.as_slice(), number) {
            return false;
        }
    }
    true
}
