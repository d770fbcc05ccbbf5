//! The sections of the grammar, in the order of their entries.

/// What a production writes a part of.
#[derive(Clone, Copy)]
pub enum Section {
    /// modules, their stage, imports and items
    Modules,
    /// members, fields and cases of declared types
    Declarations,
    /// types, and what stands around or behind a base type
    Types,
    /// names of types, builtin integers and `Optional<T>`
    BaseTypes,
    /// what a function has before its blocks, and the frame of its type
    Functions,
    /// parameters and results
    Signatures,
    /// blocks, their instructions in a row, and names
    Blocks,
    /// operands, edges and members
    Operands,
    /// flags, qualifiers and words for a debugger
    Words,
}
