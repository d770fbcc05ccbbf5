//! What a table says of an item.

use crate::path_patterns::Mark;

/// What an item does to one subject: a mark of its switch.
#[derive(Clone, Copy, PartialEq, Eq, Debug)]
pub struct Entry {
    pub subject: u32,
    pub mark: Mark,
}
