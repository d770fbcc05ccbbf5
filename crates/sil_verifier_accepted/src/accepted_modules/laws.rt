//! What the definitions keep, on calls that do nothing.

ghost use Rattle.sil_verifier_accepted.specs.AcceptedModules.inner.Laws.{AreAcceptedWhereNothingIsFound, AreWalksShortest};

/// A module is accepted just where nothing is wrong with it.
pub fn accepted_where_nothing_is_found()
    ensures { AreAcceptedWhereNothingIsFound }
{}

/// The walk of a refusal has the fewest edges of all that show its rule of its value.
pub fn walks_are_shortest()
    ensures { AreWalksShortest }
{}
