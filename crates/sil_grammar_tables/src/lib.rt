//! The grammar as data: its parts, the productions of each, what a production writes and what it begins with.
//! A file for each section of the grammar has the entries; the rows of instructions come from their table.
#![tactic(auto)]

/// What one token is asked to be: `word Sil`, `mnemonic Struct`, `at Owned`, `mark Colon`, `class Percent`, `any AnyWord`.
macro_rules! terminal {
    (word $keyword:ident) => {
        Terminal::Just(Class::Word(Keyword::$keyword))
    };
    (mnemonic $op:ident) => {
        Terminal::Just(Class::Word(Keyword::Mnemonic(Op::$op)))
    };
    (at $word:ident) => {
        Terminal::Just(Class::At(AtWord::$word))
    };
    (mark $punctuation:ident) => {
        Terminal::Just(Class::Punctuation(Punctuation::$punctuation))
    };
    (class $class:ident) => {
        Terminal::Just(Class::$class)
    };
    (any $terminal:ident) => {
        Terminal::$terminal
    };
}

/// One place in what a production writes: `part Type`, or a token as `terminal!` has it.
macro_rules! symbol {
    (part $part:ident) => {
        Symbol::Part(Nonterminal::$part)
    };
    ($kind:ident $name:ident) => {
        Symbol::Read(terminal!($kind $name))
    };
}

/// A choice by production: what each writes, and with which tokens that begins; and what is asked for the others.
macro_rules! productions {
    ($production:ident in $section:ident:
        $($name:ident: [$($kind:ident $symbol:ident),*], [$($first_kind:ident $first:ident),*];)*
        _ => $other:expr) => {
        match $production {
            $(Production::$name => ProductionEntry {
                section: Section::$section,
                body: &[$(symbol!($kind $symbol)),*],
                starts: &[$(terminal!($first_kind $first)),*],
            },)*
            _ => $other,
        }
    };
}

/// The production of this name, or the row of this instruction.
macro_rules! named {
    (Row $op:ident) => {
        Production::Row(Op::$op)
    };
    ($name:ident) => {
        Production::$name
    };
}

/// The production by which a part may be empty.
macro_rules! if_any {
    (none) => {
        None
    };
    ($name:ident) => {
        Some(Production::$name)
    };
}

/// A choice by part: its productions, the one by which it may be empty, and the shortest; and what is asked for the others.
macro_rules! parts {
    ($part:ident: $($name:ident: [$($production:ident),*], $empty:ident, $($shortest:ident)+;)* _ => $other:expr) => {
        match $part {
            $(Nonterminal::$name => PartEntry {
                alternatives: &[$(Production::$production),*],
                empty_choice: if_any!($empty),
                shortest: named!($($shortest)+),
            },)*
            _ => $other,
        }
    };
}

mod base_types;
mod blocks;
mod bodies;
mod declarations;
mod entries;
mod functions;
mod grammar;
mod modules;
mod operands;
mod rows;
mod sections;
mod signatures;
mod tables;
mod types;
mod words;

pub use bodies::{body_length, push_body};
pub use grammar::{Nonterminal, Production, Symbol, Terminal};
pub use rows::{ends_block, has_comma_behind};
pub use sections::Section;
pub use tables::{alternatives, empty_choice, section, shortest, starts};
