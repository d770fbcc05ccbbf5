//! What lending keeps, on a call that does nothing. The lemmas behind it are in `proofs/`.

ghost use Rattle.copy_pairing_acceptance.specs.LentFunctions.inner.Laws.{LentValuesAreClean};

/// Where a copy of an accepted function can be a borrow, the function in which it is one keeps the rules on definitions, kinds, lives and scopes.
pub fn lent_values_are_clean()
    ensures { LentValuesAreClean }
{}
