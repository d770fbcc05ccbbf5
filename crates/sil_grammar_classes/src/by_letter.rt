//! Keywords are looked up among those with the same first letter, which answers as a search through all of them does.

ghost use Rattle.std.specs.Prelude.{◌≡◌};
ghost use Rattle.sil_grammar_classes.specs.inner.ByLetter.{keywords_at, looked_up};

use crate::classes::Keyword;
use crate::classes::Keyword::Mnemonic;
use crate::spellings::spelling;
use instruction_table::Op;

/// At each number the keywords whose first letter, small or capital, has this number in the alphabet.
/// Letters behind `w` share its row.
static BY_LETTER: [&[Keyword]; 24] = [
    &[], // no letter
    &[
        Mnemonic(Op::AllocRef),
        Mnemonic(Op::AllocStack),
        Mnemonic(Op::Apply),
        Keyword::Argno,
        Keyword::Assign,
    ], // a
    &[
        Keyword::Builtin,
        Mnemonic(Op::BeginBorrow),
        Mnemonic(Op::Br),
        Mnemonic(Op::Builtin),
    ], // b
    &[
        Keyword::Canonical,
        Keyword::Case,
        Keyword::Class,
        Mnemonic(Op::CondBr),
        Mnemonic(Op::CondFail),
        Keyword::Copy,
        Mnemonic(Op::CopyValue),
    ], // c
    &[
        Mnemonic(Op::DeallocStack),
        Mnemonic(Op::DebugValue),
        Keyword::Default,
        Keyword::Deinit,
        Mnemonic(Op::DestroyAddr),
        Mnemonic(Op::DestroyValue),
        Keyword::Destroyer,
        Mnemonic(Op::DestructureStruct),
        Mnemonic(Op::DestructureTuple),
    ], // d
    &[
        Mnemonic(Op::EndBorrow),
        Mnemonic(Op::Enum),
        Keyword::Enumelt,
        Keyword::Expr,
    ], // e
    &[Keyword::Final, Mnemonic(Op::FunctionRef)], // f
    &[Keyword::Get], // g
    &[Keyword::Hidden], // h
    &[
        Keyword::Int1,
        Keyword::Int16,
        Keyword::Int32,
        Keyword::Int64,
        Keyword::Int8,
        Keyword::Import,
        Keyword::Init,
        Keyword::Initialization,
        Mnemonic(Op::IntegerLiteral),
    ], // i
    &[], // j
    &[], // k
    &[
        Keyword::Let,
        Keyword::Lexical,
        Mnemonic(Op::Load),
        Mnemonic(Op::LoadBorrow),
        Mnemonic(Op::LoadUnowned),
        Mnemonic(Op::LoadWeak),
    ], // l
    &[Keyword::Method, Mnemonic(Op::MoveValue)], // m
    &[Keyword::Name], // n
    &[Keyword::Optional, Keyword::OpDeref], // o
    &[Keyword::Private, Keyword::Public], // p
    &[], // q
    &[
        Keyword::Raw,
        Mnemonic(Op::RefElementAddr),
        Mnemonic(Op::ReleaseValue),
        Mnemonic(Op::RetainValue),
        Mnemonic(Op::Return),
    ], // r
    &[
        Keyword::Set,
        Keyword::Shared,
        Keyword::Sil,
        Keyword::SilStage,
        Keyword::SilVtable,
        Mnemonic(Op::Store),
        Mnemonic(Op::StoreUnowned),
        Mnemonic(Op::StoreWeak),
        Mnemonic(Op::StrongRelease),
        Mnemonic(Op::StrongRetain),
        Mnemonic(Op::Struct),
        Mnemonic(Op::StructElementAddr),
        Mnemonic(Op::StructExtract),
        Mnemonic(Op::SwitchEnum),
    ], // s
    &[
        Keyword::Take,
        Keyword::Thin,
        Keyword::To,
        Keyword::Trivial,
        Mnemonic(Op::Tuple),
        Mnemonic(Op::TupleElementAddr),
        Mnemonic(Op::TupleExtract),
    ], // t
    &[
        Keyword::Unowned,
        Mnemonic(Op::Unreachable),
        Mnemonic(Op::Upcast),
    ], // u
    &[Keyword::Var, Keyword::VarDecl], // v
    &[Keyword::Weak], // w to z
];

#[tactic(auto, unfolding(crate::specs::inner::ByLetter::keywords_at))]
fn keywords_at(place: usize) -> &'static [Keyword]
    ensures { result.now ≡ keywords_at place }
{
    if place < BY_LETTER.len() {
        BY_LETTER[place]
    } else {
        &[]
    }
}

/// The keyword that is spelled so.
#[tactic(auto, unfolding(crate::specs::inner::ByLetter::looked_up))]
pub fn look_up(word: &[u8]) -> Option<Keyword>
    ensures { result ≡ looked_up word.now }
{
    let first = word.first().copied().unwrap_or(0);
    let letter = first as usize % 32;
    keywords_at(letter.min(23))
        .iter()
        .copied()
        .find(|keyword| spelling(*keyword) == word)
}
