//! The text of the module that the program can make by itself, of the size that is asked for: many functions, each of which makes
//! objects and drops them. Which rules a module has to keep, and how it runs, isn't known here.
#![tactic(auto)]

mod generated;
mod laws;
mod pieces;
mod work;

pub use generated::generated_text;
pub use laws::{generated_modules_are_numbered, generated_texts_are_short};
