//! What follows from the definitions of what a text spells and why it is refused, on calls that do nothing.

ghost use Rattle.sil_grammar.specs.inner.Laws.{AreRefusedOnce, AreSpelledNumbered, AreSpelledOnce, HaveFewestTokens};

/// A text spells at most one module.
pub fn spelled_once()
    ensures { AreSpelledOnce }
{}

/// A module that a text spells is in numbered form.
pub fn spelled_modules_are_numbered()
    ensures { AreSpelledNumbered }
{}

/// No module has fewer tokens than the shortest one that begins with the same tokens.
pub fn shortest_has_fewest_tokens()
    ensures { HaveFewestTokens }
{}

/// A text is refused for one reason, unless memory runs out.
pub fn refused_once()
    ensures { AreRefusedOnce }
{}
