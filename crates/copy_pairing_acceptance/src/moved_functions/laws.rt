//! The law of moved values, on a call that does nothing. The lemmas behind it are in `proofs/`.

ghost use Rattle.copy_pairing_acceptance.specs.MovedFunctions.inner.Laws.{MovedValuesAreClean};

/// An accepted function keeps the rules on values, memory aside, where a copy that can become a move does.
pub fn moved_values_are_clean()
    ensures { MovedValuesAreClean }
{}
