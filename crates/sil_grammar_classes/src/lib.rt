//! The classes of tokens that the grammar tells apart, and how each word, name with `@` and piece of punctuation is spelled.
#![tactic(auto)]

mod by_letter;
mod classes;
mod laws;
mod spellings;

pub use classes::{AtWord, Class, Keyword, Punctuation};
pub use laws::words_are_told;
pub use spellings::{at_spelling, at_word, keyword, punctuation, punctuation_spelling, spelling};
