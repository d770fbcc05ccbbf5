//! The words of a command line: which word names the mode, which one behind it is a number, what the options are given, and whether the
//! flag is there. `clap` reads them. What a mode is, and which of these it takes, isn't asked here, nor what the number is.
#![tactic(auto)]

mod declared_command;
mod laws;
mod words;

pub use laws::command_lines_say_one_thing;
pub use words::{CommandWords, read_words};
