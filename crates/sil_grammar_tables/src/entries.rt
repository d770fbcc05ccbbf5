//! What the tables say of a production, and of a part.

use crate::grammar::{Production, Symbol, Terminal};
use crate::sections::Section;

/// What the table of productions says of one that is no row.
#[derive(Clone, Copy)]
pub(crate) struct ProductionEntry {
    pub section: Section,
    /// what it writes: tokens and parts, in a row
    pub body: &'static [Symbol],
    /// with which tokens a text of it begins that isn't empty
    pub starts: &'static [Terminal],
}

/// What the table of parts says of one.
#[derive(Clone, Copy)]
pub(crate) struct PartEntry {
    /// its productions, in the order in which the grammar lists them; those of rows are told by their mnemonics alone
    pub alternatives: &'static [Production],
    /// the production by which it may be empty
    pub empty_choice: Option<Production>,
    /// the production that leads to the fewest tokens
    pub shortest: Production,
}
