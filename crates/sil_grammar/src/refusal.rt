//! Why a text is not read as a module.

ghost use Rattle.std.specs.Prelude.{◌≡◌};
ghost use Rattle.sil_grammar.specs.declared.first_bad.BadPlace.{BadPlace};
ghost use Rattle.sil_grammar.specs.declared.refusal.ReadRefusal.TheVariants.{Memory};
ghost use Rattle.sil_grammar.specs.Refusals.{refusal_of_bad, refusal_of_fault};
ghost use Rattle.sil_grammar_tree.specs.declared.written_tree.fault.Fault.{Fault};

use crate::first_bad::{BadKind, BadPlace};
use sil_ast::{Exhausted, Place};
use sil_grammar_names::NameRefusal;
use sil_grammar_tree::{Fault, FaultKind};
use sil_lexer::{LexRefusal, LexStop};
use sil_rules::LimitWord;

/// Why a text is not read. All places are those of tokens, or the end of the text.
#[derive(Clone, Copy, Debug, PartialEq, Eq)]
pub enum ReadRefusal {
    /// The tokens stop: a byte that begins none, a text that isn't closed, or a name of more than 255 bytes.
    Lex(LexRefusal),
    /// No module goes on with this token, or ends here.
    Unexpected(Place),
    /// No module goes on with this token, and it stands where a mnemonic, a builtin's name or an integer's width would.
    Unsupported(Place),
    /// A number isn't in its range.
    NumberRange(Place),
    /// The token passes a limit.
    Limit { what: LimitWord, place: Place },
    /// A name is defined a second time.
    Twice(Place),
    /// A name of a value, a block or a function is used, and not defined.
    UnknownName(Place),
    /// There was no memory left.
    Memory,
}

impl From<Exhausted> for ReadRefusal {
    ghost from_gives = { λ _ e. e ≡ Memory };

    fn from(_exhausted: Exhausted) -> ReadRefusal {
        ReadRefusal::Memory
    }
}

impl From<LexStop> for ReadRefusal {
    ghost from_gives = { λ _ e. e ≡ Memory };

    fn from(_stop: LexStop) -> ReadRefusal {
        ReadRefusal::Memory
    }
}

/// The refusal of a text for its first bad place.
#[tactic(auto, unfolding(crate::specs::Refusals::refusal_of_bad))]
pub(crate) fn refusal_of_bad(bad: BadPlace) -> ReadRefusal
    ensures { result ≡ refusal_of_bad bad.kind bad.place }
{
    match bad.kind {
        BadKind::BadByte => ReadRefusal::Lex(LexRefusal::BadByte(bad.place)),
        BadKind::UnclosedText => ReadRefusal::Lex(LexRefusal::UnclosedText(bad.place)),
        BadKind::NameTooLong => ReadRefusal::Lex(LexRefusal::NameTooLong(bad.place)),
        BadKind::Unsupported => ReadRefusal::Unsupported(bad.place),
        BadKind::Unexpected => ReadRefusal::Unexpected(bad.place),
    }
}

/// The refusal of a text for a fault.
#[tactic(auto, unfolding(crate::specs::Refusals::refusal_of_fault))]
pub(crate) fn refusal_of_fault(fault: Fault) -> ReadRefusal
    ensures { result ≡ refusal_of_fault fault.kind fault.place }
{
    match fault.kind {
        FaultKind::NumberRange => ReadRefusal::NumberRange(fault.place),
        FaultKind::Limit(what) => ReadRefusal::Limit {
            what,
            place: fault.place,
        },
        FaultKind::Twice => ReadRefusal::Twice(fault.place),
        FaultKind::UnknownName => ReadRefusal::UnknownName(fault.place),
    }
}
