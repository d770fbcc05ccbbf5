//! What an item does, step by step, to memory and to the values that it lends.

use crate::columns::Allowance;
use argument_conventions::{AddressRow, Content};
use sil_ast::ValueId;

/// What is done to a location.
#[derive(Clone, Copy, Debug, PartialEq, Eq)]
pub enum Operation {
    /// It is written for the first time, with `[init]`.
    FirstWrite,
    Read,
    /// It is read, and lent.
    Lend,
    /// What it holds is replaced.
    Write,
    /// A trivial value is stored, whether it held one or not.
    TrivialStore,
    /// Its address is handed to a call, by a convention with this row.
    Handed(AddressRow),
    /// What it holds is taken away.
    Take,
}

/// An operation, and the address at which it is done.
#[derive(Clone, Copy, Debug, PartialEq, Eq)]
pub struct Operated {
    pub address: ValueId,
    pub operation: Operation,
}

/// One step of what an item does.
#[derive(Clone, Copy, Debug, PartialEq, Eq)]
pub enum Access {
    /// An Owned value or a scope ends.
    Ends(ValueId),
    /// An Owned value, a scope or a `@guaranteed` argument of the entry begins.
    Begins(ValueId),
    /// A slot or an object is allocated.
    Allocates(ValueId),
    /// A `dealloc_stack` has this address as its operand. One of another address than a slot's deallocates no slot.
    Deallocates(ValueId),
    /// The entry is given a location, full or empty.
    Given(ValueId, Content),
    /// A location is operated on.
    Does(Operated),
    /// A value is an operand, of an instruction that takes these of unfinished objects.
    Mentions {
        value: ValueId,
        allowance: Allowance,
    },
}
