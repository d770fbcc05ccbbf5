//! What may be wrong with a text that has the shape of a module, and which of two faults comes first.

use sil_ast::Place;
use sil_rules::LimitWord;

/// What is wrong at a token.
#[derive(Clone, Copy, Debug, PartialEq, Eq)]
pub enum FaultKind {
    /// a number outside its range
    NumberRange,
    /// the token passes the limit on this quantity
    Limit(LimitWord),
    /// a name that is defined before
    Twice,
    /// a name that is used and not defined
    UnknownName,
}

/// What is wrong, and at which token.
#[derive(Clone, Copy, Debug, PartialEq, Eq)]
pub struct Fault {
    pub kind: FaultKind,
    pub place: Place,
}
