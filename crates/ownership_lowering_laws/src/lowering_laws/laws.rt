//! The laws of the names and numbers of lowered functions, each on a call that does nothing. The lemmas behind them are in `proofs/`.

ghost use Rattle.ownership_lowering_laws.specs.LoweringLaws.inner.Laws.{AreLowerable, HaveNoRings};

/// Each function of a module that is numbered, typed and without a ring of names has what lowering asks.
pub fn functions_are_lowerable()
    ensures { AreLowerable }
{}

/// In a module in numbered form that breaks no rule on kinds, no value is another name of itself.
pub fn kinds_have_no_rings()
    ensures { HaveNoRings }
{}
