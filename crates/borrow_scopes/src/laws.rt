//! What the table keeps, and what it says, each on a call that does nothing.

ghost use Rattle.borrow_scopes.specs.inner.Runs.{AreOpenWhileOn};

/// The switch of a scope is on just while the scope is open, which is from a begin to the next end.
pub fn scopes_are_runs()
    ensures { AreOpenWhileOn }
{}
