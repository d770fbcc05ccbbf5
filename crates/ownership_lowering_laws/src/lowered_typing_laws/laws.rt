//! The law on the typing of lowered modules, on a call that does nothing. The lemmas behind it are in `proofs/`.

ghost use Rattle.ownership_lowering_laws.specs.LoweredTypingLaws.inner.LoweredTyped.{LoweredIsTyped};

/// What lowering makes of a typed module is typed.
pub fn lowered_is_typed()
    ensures { LoweredIsTyped }
{}
