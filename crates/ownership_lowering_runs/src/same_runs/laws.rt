//! Laws of lowered runs beside runs by holders, on calls that do nothing. The lemmas behind them are in `proofs/`.

ghost use Rattle.ownership_lowering_runs.specs.StoredRuns.inner.Runs.{LoweredRunsAreSame};
ghost use Rattle.ownership_lowering_runs.specs.SameRuns.inner.Laws.{AreNumbersCounts};

/// The lowered run of an accepted module ends as the run by holders does, and the other way round.
pub fn lowered_runs_are_same()
    ensures { LoweredRunsAreSame }
{}

/// Wherever the run by holders comes to, and wherever a turn of the lowered run begins, the numbers that the lowered run stores are
/// the counts of holders.
pub fn numbers_are_counts()
    ensures { AreNumbersCounts }
{}
