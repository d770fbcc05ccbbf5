//! The law of lowered modules, on a call that does nothing.

ghost use Rattle.ownership_lowering.specs.inner.Laws.{AcceptedLowersRunnable};

use ownership_lowering_laws::{
    declares_the_same, kinds_have_no_rings, lowered_is_numbered, lowered_is_typed, types_are_kept,
};

/// What lowering makes of an accepted module can be run, and declares what the module does.
pub fn accepted_lowers_runnable()
    ensures { AcceptedLowersRunnable }
{
    kinds_have_no_rings();
    lowered_is_numbered();
    types_are_kept();
    lowered_is_typed();
    declares_the_same();
}
