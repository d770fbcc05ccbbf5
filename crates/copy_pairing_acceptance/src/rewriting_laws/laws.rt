//! The laws on rewritten modules, each on a call that does nothing. The lemmas behind them are in `proofs/`.

ghost use Rattle.copy_pairing_acceptance.specs.RewritingLaws.inner.Laws.{
  OptimisedIsVerified,
  RewritingKeepsVerified,
};

use crate::lent_functions::lent_values_are_clean;
use crate::lent_memory::lent_memory_is_clean;
use crate::moved_functions::moved_values_are_clean;
use crate::moved_memory::moved_memory_is_clean;
use crate::rewritten_typing_laws::rewriting_keeps_types;

/// A verified module stays verified where a copy that can go is rewritten.
pub fn rewriting_keeps_verified()
    ensures { RewritingKeepsVerified }
{
    rewriting_keeps_types();
    lent_values_are_clean();
    lent_memory_is_clean();
    moved_values_are_clean();
    moved_memory_is_clean();
}

/// The optimised module of a verified one is verified.
pub fn optimised_is_verified()
    ensures { OptimisedIsVerified }
{
    rewriting_keeps_verified();
}
