//! What the totals of a run have to do with stored numbers: a law on a call that does nothing. The lemmas behind it are in `proofs/`.

ghost use Rattle.holder_model_laws.specs.ReferenceTotals.inner.Totals.{AreTotalsLeft};

/// After a return they are the strong numbers of the objects that are left and the releases: an object that is freed has none.
pub fn totals_are_left()
    ensures { AreTotalsLeft }
{}
