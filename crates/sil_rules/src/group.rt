//! The groups of rules, in the order in which a module's first refusal is looked for.

/// Rules among which a refusal is chosen together. Between `Finiteness` and `Typing` stand the limits on depth and leaves,
/// which are no rules.
#[derive(Clone, Copy, Debug, PartialEq, Eq)]
pub enum Group {
    /// Types and members are declared, and weak and unowned references stand in storage: 101, 103 and 104.
    Declarations,
    /// No type holds itself: 102.
    Finiteness,
    /// Types, numbers and forms of operands, results, arguments and signatures: 201 to 207 and 209 to 212.
    Typing,
    /// The signatures of deinitialisers: 208.
    Deinitialisers,
    /// Values are defined before they are operands: 301.
    Definitions,
    /// Ownership kinds: 302 to 305.
    Kinds,
    /// The lifetimes of owned values: 401 to 404.
    Lifetimes,
    /// Borrow scopes: 501 to 505.
    Scopes,
    /// Memory locations: 601 to 611.
    Memory,
}
