//! A module as its text writes it, with names and places where a module has numbers: plain data, and which of two faults in it
//! comes first.
//! Its spellings share the bytes of the text. What these say isn't known here, but for numbers: an optional `-` and decimal
//! digits, of any length.
//! It knows of no token: a caller gives the spelling of a number, and the width or the largest number that is taken.
#![tactic(auto)]

mod written_numbers;
mod written_tree;

pub use written_numbers::{literal, small_number};
pub use written_tree::{
    Fault, FaultKind, InstBox, Spelling, WrittenArg, WrittenBlock, WrittenCase, WrittenDecl,
    WrittenEdge, WrittenEntry, WrittenField, WrittenFunction, WrittenInst, WrittenItem,
    WrittenModule, WrittenOperand, WrittenQualifier, WrittenToken, WrittenVtable, earlier,
    limit_fault, out_of_range, passed,
};
