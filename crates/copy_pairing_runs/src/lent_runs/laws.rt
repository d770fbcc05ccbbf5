//! The law on runs of a module in which a copy is lent, on a call that does nothing. The lemmas behind it are in `proofs/`.

ghost use Rattle.copy_pairing_runs.specs.LentRuns.inner.Laws.{LentRunsAsItDid};

use copy_pairing_acceptance::rewriting_keeps_verified;

/// Where a copy of an accepted module can be a borrow, the module in which it is one runs as it did.
pub fn lent_runs_as_it_did()
    ensures { LentRunsAsItDid }
{
    rewriting_keeps_verified();
}
