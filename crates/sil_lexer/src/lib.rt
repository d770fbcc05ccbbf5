//! Cuts a text into tokens, each with its place and its bytes in the text.
//! It knows which bytes spell a token, and nothing of the order in which tokens may stand.
#![tactic(auto)]

mod bytes;
mod lexer;
mod place;
mod scan;
mod skip;
mod spelling;
mod starts;
mod token;
mod tokens;

pub use lexer::{LexStop, lex, longest_taken};
pub use place::{end_place, place_at};
pub use spelling::{without_quotes, without_sigil};
pub use token::{LexRefusal, TokenKind};
pub use tokens::Tokens;
