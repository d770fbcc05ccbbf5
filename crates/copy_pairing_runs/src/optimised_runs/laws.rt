//! The laws on runs of an optimised module, each on a call that does nothing. The lemmas behind them are in `proofs/`.

ghost use Rattle.copy_pairing_runs.specs.OptimisedRuns.inner.Laws.{
  OptimisedOutcomesAgree,
  OptimisedRunsAsItDid,
};

use crate::lent_runs::{lent_runs_as_it_did, rewriting_keeps_verified};
use crate::moved_runs::moved_runs_as_it_did;
use holder_model_laws::{outcomes_are_in_lockstep, rewritten_again};

/// The optimised module of an accepted one runs as it did, however many copies went.
pub fn optimised_runs_as_it_did()
    ensures { OptimisedRunsAsItDid }
{
    lent_runs_as_it_did();
    moved_runs_as_it_did();
    rewriting_keeps_verified();
    rewritten_again();
}

/// What is told of its runs agrees with what is told of those.
pub fn optimised_outcomes_agree()
    ensures { OptimisedOutcomesAgree }
{
    optimised_runs_as_it_did();
    outcomes_are_in_lockstep();
}
