//! The law of runs of lowered code, on a call that does nothing. The lemmas behind it are in `proofs/`.

ghost use Rattle.holder_model.specs.LoweredRun.inner.Laws.{LoweredRunsEndOnce};

/// A run of lowered code from one entry function, for one bound on turns, has at most one outcome.
pub fn lowered_runs_end_once()
    ensures { LoweredRunsEndOnce }
{}
