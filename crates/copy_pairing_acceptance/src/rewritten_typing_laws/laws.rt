//! The law on the form and the types of a module in which a copy was rewritten, on a call that does nothing. The lemmas behind it are in `proofs/`.

ghost use Rattle.copy_pairing_acceptance.specs.RewrittenTypingLaws.inner.KeptTypes.{RewritingKeepsTypes};

/// A typed module in numbered form stays so where a copy that can go is rewritten, and declares the same.
pub fn rewriting_keeps_types()
    ensures { RewritingKeepsTypes }
{}
