//! The law of runs by holders, on a call that does nothing. The lemmas behind it are in `proofs/`.

ghost use Rattle.holder_model.specs.inner.Laws.{RunsEndOnce};

/// A run from one entry function, for one bound on turns, has at most one outcome.
pub fn runs_end_once()
    ensures { RunsEndOnce }
{}
