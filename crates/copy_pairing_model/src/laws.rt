//! What the definitions keep, each on a call that does nothing.

ghost use Rattle.copy_pairing_model.specs.inner.Laws.{AreFewer, AreUnique};

/// A module has at most one optimised module: what is rewritten next, and how, is fixed.
pub fn optimised_modules_are_unique()
    ensures { AreUnique }
{}

/// Each rewriting takes at least one `copy_value` away, so there are at most as many as the module has copies.
pub fn copies_get_fewer()
    ensures { AreFewer }
{}
