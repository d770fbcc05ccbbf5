//! The laws of kinds and bases, each on a call that does nothing. The lemmas behind them are in `proofs/`, for the checks above.

ghost use Rattle.ownership_kinds_chains.specs.OwnershipChains.inner.Laws.{AreToldInTime, AreUnique};

/// A value has one kind and one list of bases.
pub fn facts_are_unique()
    ensures { AreUnique }
{}

/// As many steps along chains as a function has values tell just the kinds and bases.
pub fn facts_are_told_in_time()
    ensures { AreToldInTime }
{}
