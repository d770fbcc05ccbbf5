//! Reads a module from its text: which module a text spells, and where a text goes wrong that spells none.
//! What the tokens of a text stand for, and what is at fault in it, are relations over their derivation, with one line for each
//! production of the grammar. Laws say that the reader's replay comes to the same, and that what is read is in numbered form.
//! It knows of no rule that a module has to keep.
#![tactic(auto)]

mod classes;
mod cutting;
mod first_bad;
mod laws;
mod reader;
mod refusal;

pub use first_bad::{BadKind, BadPlace, first_bad_place};
pub use laws::{
    refused_once, shortest_has_fewest_tokens, spelled_modules_are_numbered, spelled_once,
};
pub use reader::{read, read_owned};
pub use refusal::ReadRefusal;
pub use sil_rules::LimitWord;
