//! Where the values of a function stand in a frame.

use sil_ast::ValueId;

/// A value of an object type: its leaves stand side by side among those of its frame, from `at` on.
#[derive(Clone, Copy, Debug, PartialEq, Eq)]
pub struct Local {
    pub value: ValueId,
    pub at: u32,
    /// How many leaves it has.
    pub size: u32,
}

/// A value that is an address, by its place among the addresses of its frame.
#[derive(Clone, Copy, Debug, PartialEq, Eq)]
pub struct LocalAddress {
    pub value: ValueId,
    pub at: u32,
}

/// A value that another one becomes: along an edge, or as an argument of a call, where `to` is one of the callee.
#[derive(Clone, Copy, Debug, PartialEq, Eq)]
pub struct Carry {
    pub from: Local,
    pub to: Local,
}

/// An address that is handed to a call. `to` is one of the callee.
#[derive(Clone, Copy, Debug, PartialEq, Eq)]
pub struct CarryAddress {
    pub from: LocalAddress,
    pub to: LocalAddress,
}
