//! Numbers as a text writes them: an optional `-` and decimal digits, of any length.
//! It knows of no token and no type: a caller gives the spelling, and the width or the largest number that is taken.
mod number;

pub use number::{literal, small_number};
