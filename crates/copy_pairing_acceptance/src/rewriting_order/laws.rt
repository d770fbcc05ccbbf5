//! The laws, each on a call that does nothing. The lemmas behind them are in `proofs/`.

ghost use Rattle.copy_pairing_acceptance.specs.RewritingOrder.inner.Laws.{
  LaterOnesAreLeft,
  LendingKeepsBorrowable,
  LendingMakesNoCopy,
  MovingKeepsBorrowable,
  MovingKeepsValues,
  MovingLetsNoneBorrow,
  MovingMakesNoCopy,
};

/// Behind the rewriting of the first copy that can go, each copy that can go comes later in the text.
pub fn later_ones_are_left()
    ensures { LaterOnesAreLeft }
{}

/// A borrow changes for no other copy whether it can be a borrow.
pub fn lending_keeps_borrowable()
    ensures { LendingKeepsBorrowable }
{}

/// A move of a copy of `v` changes that at most for `v` itself and for the other copies of `v`.
pub fn moving_keeps_borrowable()
    ensures { MovingKeepsBorrowable }
{}

/// No copy can be a borrow behind a move that could not before.
pub fn moving_lets_none_borrow()
    ensures { MovingLetsNoneBorrow }
{}

/// Where a copy is lent no copy is made.
pub fn lending_makes_no_copy()
    ensures { LendingMakesNoCopy }
{}

/// Where a copy is moved no copy is made.
pub fn moving_makes_no_copy()
    ensures { MovingMakesNoCopy }
{}

/// All values keep their kinds, bases and borrows where a copy is moved.
pub fn moving_keeps_values()
    ensures { MovingKeepsValues }
{}
