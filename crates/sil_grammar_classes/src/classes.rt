//! The classes of tokens that the grammar tells apart.
//! A class says which words a token may stand for, and not what it spells.

use instruction_table::Op;

/// A word that the grammar gives a meaning, or any other. Each may still be a name.
/// `Builtin` is the word before `.Int64`; `builtin` is a mnemonic.
#[derive(Clone, Copy, Debug, PartialEq, Eq)]
pub enum Keyword {
    Other,
    SilStage,
    Raw,
    Canonical,
    Import,
    Final,
    Class,
    Sil,
    SilVtable,
    Deinit,
    Init,
    Weak,
    Unowned,
    Var,
    Let,
    Get,
    Set,
    Case,
    Builtin,
    Optional,
    Int1,
    Int8,
    Int16,
    Int32,
    Int64,
    Hidden,
    Private,
    Shared,
    Public,
    Thin,
    Method,
    To,
    Default,
    Enumelt,
    Lexical,
    VarDecl,
    Copy,
    Take,
    Trivial,
    Assign,
    Initialization,
    Name,
    Argno,
    Expr,
    OpDeref,
    Destroyer,
    /// The mnemonic of an instruction. `struct` and `enum` also begin an item.
    Mnemonic(Op),
}

/// A name with `@` that the grammar gives a meaning, or any other. Each may still be the name of a function.
#[derive(Clone, Copy, Debug, PartialEq, Eq)]
pub enum AtWord {
    Other,
    HasStorage,
    SilWeak,
    SilUnowned,
    Convention,
    Owned,
    Guaranteed,
    Inout,
    In,
    InGuaranteed,
    Out,
}

/// Punctuation.
#[derive(Clone, Copy, Debug, PartialEq, Eq)]
pub enum Punctuation {
    LeftBrace,
    RightBrace,
    LeftParen,
    RightParen,
    LeftBracket,
    RightBracket,
    Less,
    Greater,
    Comma,
    Colon,
    Dot,
    Question,
    Star,
    Equals,
    Bang,
    Dollar,
    Hash,
    Arrow,
}

/// The class of a token.
#[derive(Clone, Copy, Debug, PartialEq, Eq)]
pub enum Class {
    Word(Keyword),
    At(AtWord),
    Percent,
    Number,
    /// a text that names a builtin operation
    BuiltinText,
    OtherText,
    Punctuation(Punctuation),
}
