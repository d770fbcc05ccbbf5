//! The law on runs of a module in which a copy became a move, on a call that does nothing. The lemmas behind it are in `proofs/`.

ghost use Rattle.copy_pairing_runs.specs.MovedRuns.inner.Laws.{MovedRunsAsItDid};

use crate::lent_runs::rewriting_keeps_verified;

/// Where a copy of an accepted module can be a move, the module in which it is one runs as it did.
pub fn moved_runs_as_it_did()
    ensures { MovedRunsAsItDid }
{
    rewriting_keeps_verified();
}
