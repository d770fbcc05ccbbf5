//! What the table keeps, and what it says, each on a call that does nothing.

ghost use Rattle.lifetime_worklist.specs.inner.Runs.{AreEndedRuns, AreHeldWhileOn, AreLivesRuns};

/// The switch of an Owned value is on just while the value is held, which is from a begin to the next end.
/// Its marks are lawful just where they are runs of a begin, any number of uses, and an end; before a `return` each run has its end.
pub fn lives_are_runs()
    ensures held { AreHeldWhileOn }
    ensures runs { AreLivesRuns }
    ensures ended { AreEndedRuns }
{}
