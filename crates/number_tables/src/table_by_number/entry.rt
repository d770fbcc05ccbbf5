//! An entry of a table.

/// The end of every chain, the head of a chain, or a slot.
#[derive(Clone, Copy)]
pub(crate) struct Entry {
    /// Of a slot that has a number one more than the number, of a free one 0. At the end of chains it is 0, at their heads the greatest.
    pub key: u64,
    /// The entry with the next lower key in the same chain.
    pub next: u32,
}

/// The key of heads.
pub(crate) const TOP: u64 = 18446744073709551615;

/// An entry with no key.
pub(crate) const NO_ENTRY: Entry = Entry { key: 0, next: 0 };

/// The head of an empty chain.
pub(crate) const EMPTY_HEAD: Entry = Entry { key: TOP, next: 0 };
