//! The laws of the rules and of the order of refusals, on calls that do nothing.
//! The lemmas for the checks above are in `proofs/`.

ghost use Rattle.sil_rules.specs.inner.Laws.{AreOrdered};
ghost use Rattle.sil_rules.specs.declared.rule.TheConstants.{NUMBERS};
ghost use Rattle.std.specs.List.Sorted.{IsStrictlyIncreasing};

/// Keys are in one order: of two different ones, one comes first.
pub fn keys_are_ordered()
    ensures { AreOrdered }
{}

/// Rules stand in the order of their numbers.
pub fn numbers_go_up()
    ensures { IsStrictlyIncreasing NUMBERS }
{}
