//! The law of the facts of a function's values, on a call that does nothing.

ghost use Rattle.ownership_kinds.specs.inner.Laws.{AreFactsTold};

/// A value has just the kind and the bases that are told by those of its operands. A number that is no value's has none.
pub fn facts_are_told()
    ensures { AreFactsTold }
{}
