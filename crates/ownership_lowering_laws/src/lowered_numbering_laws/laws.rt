//! The laws of a lowered module's form, each on a call that does nothing. The lemmas behind them are in `proofs/`.

ghost use Rattle.ownership_lowering_laws.specs.LoweredNumberingLaws.inner.Laws.{
  AreTypesKept,
  DeclaresTheSame,
  IsLoweredNumbered,
};

/// A lowered module is in numbered form but for the limit on instructions, and no function of it is in ownership form.
pub fn lowered_is_numbered()
    ensures { IsLoweredNumbered }
{}

/// A lowered module declares what the module does.
pub fn declares_the_same()
    ensures { DeclaresTheSame }
{}

/// The types of a lowered module are declared and within the limits where those of the module are.
pub fn types_are_kept()
    ensures { AreTypesKept }
{}
