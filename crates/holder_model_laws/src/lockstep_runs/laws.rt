//! Runs that agree, each law on a call that does nothing. The lemmas behind them are in `proofs/`.

ghost use Rattle.holder_model_laws.specs.LockstepRuns.inner.Laws.{AreOutcomesInLockstep, IsAsItDidAgain};

/// Where runs agree, what is told of them does.
pub fn outcomes_are_in_lockstep()
    ensures { AreOutcomesInLockstep }
{}

/// A module runs as it did itself, and what is rewritten once and again runs as the first did.
pub fn rewritten_again()
    ensures { IsAsItDidAgain }
{}
