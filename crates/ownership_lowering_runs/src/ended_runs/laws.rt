//! Laws of all runs, on calls that do nothing. The lemmas behind them are in `proofs/`.

ghost use Rattle.ownership_lowering_runs.specs.EndedRuns.inner.Laws.{LoweredRunsEnd, RunsEnd, RunsEndAlike};

/// Each run by holders ends, from each function, for each bound on turns.
pub fn runs_end()
    ensures { RunsEnd }
{}

/// Each run of lowered code ends, from each function, for each bound on turns.
pub fn lowered_runs_end()
    ensures { LoweredRunsEnd }
{}

/// The run by holders of an accepted module ends, and the run of what it is lowered to tells the same.
pub fn runs_end_alike()
    ensures { RunsEndAlike }
{}
