//! The laws of runs of accepted modules, each on a call that does nothing. The lemmas behind them are in `proofs/`.

ghost use Rattle.sil_verifier_runs.specs.inner.Laws.{NoOutcomeFaults, NoRunFaults};

/// No run ends in a fault.
pub fn no_run_faults()
    ensures { NoRunFaults }
{}

/// And no outcome of a run tells of one.
pub fn no_outcome_faults()
    ensures { NoOutcomeFaults }
{}
