//! How the words, the names with `@` and the punctuation of the grammar are spelled, and which class a spelling has.

ghost use Rattle.std.specs.Prelude.{◌≡◌, ◌∷◌, [], ◌⊎◌, IfSome};
ghost use Rattle.sil_grammar_classes.specs.declared.classes.Keyword.{Keyword};
ghost use Rattle.sil_grammar_classes.specs.declared.classes.AtWord.{AtWord};
ghost use Rattle.sil_grammar_classes.specs.declared.classes.Punctuation.{Punctuation};
ghost use Rattle.sil_grammar_classes.specs.Spelling.{spelling, keyword_of, at_spelling, at_words, known_at_word};
ghost use Rattle.sil_grammar_classes.specs.Spelling.{at_word_of, punctuation_spelling, signs, punctuation_of};

use crate::by_letter::look_up;
use crate::classes::{AtWord, Keyword, Punctuation};
use instruction_table::row_of;

/// How a keyword is spelled; nothing for `Other`.
#[tactic(auto, unfolding(crate::specs::Spelling::spelling))]
pub fn spelling(keyword: Keyword) -> &'static [u8]
    ensures { result.now ≡ spelling keyword }
{
    match keyword {
        Keyword::Other => b"",
        Keyword::SilStage => b"sil_stage",
        Keyword::Raw => b"raw",
        Keyword::Canonical => b"canonical",
        Keyword::Import => b"import",
        Keyword::Final => b"final",
        Keyword::Class => b"class",
        Keyword::Sil => b"sil",
        Keyword::SilVtable => b"sil_vtable",
        Keyword::Deinit => b"deinit",
        Keyword::Init => b"init",
        Keyword::Weak => b"weak",
        Keyword::Unowned => b"unowned",
        Keyword::Var => b"var",
        Keyword::Let => b"let",
        Keyword::Get => b"get",
        Keyword::Set => b"set",
        Keyword::Case => b"case",
        Keyword::Builtin => b"Builtin",
        Keyword::Optional => b"Optional",
        Keyword::Int1 => b"Int1",
        Keyword::Int8 => b"Int8",
        Keyword::Int16 => b"Int16",
        Keyword::Int32 => b"Int32",
        Keyword::Int64 => b"Int64",
        Keyword::Hidden => b"hidden",
        Keyword::Private => b"private",
        Keyword::Shared => b"shared",
        Keyword::Public => b"public",
        Keyword::Thin => b"thin",
        Keyword::Method => b"method",
        Keyword::To => b"to",
        Keyword::Default => b"default",
        Keyword::Enumelt => b"enumelt",
        Keyword::Lexical => b"lexical",
        Keyword::VarDecl => b"var_decl",
        Keyword::Copy => b"copy",
        Keyword::Take => b"take",
        Keyword::Trivial => b"trivial",
        Keyword::Assign => b"assign",
        Keyword::Initialization => b"initialization",
        Keyword::Name => b"name",
        Keyword::Argno => b"argno",
        Keyword::Expr => b"expr",
        Keyword::OpDeref => b"op_deref",
        Keyword::Destroyer => b"destroyer",
        Keyword::Mnemonic(op) => row_of(op).mnemonic,
    }
}

/// The keyword that a word spells.
#[tactic(auto, unfolding(crate::specs::Spelling::keyword_of))]
pub fn keyword(word: &[u8]) -> Keyword
    ensures value { result ≡ keyword_of word.now }

    // each spelling is read as what it spells, and no other word is
    ensures each { (k : Keyword) → spelling k ≡ word.now → result ≡ k }
    ensures known { (result ≡ Keyword.Other) ⊎ (spelling result ≡ word.now) }
{
    look_up(word).unwrap_or(Keyword::Other)
}

/// How a name with `@` is spelled, without the `@`; nothing for `Other`.
#[tactic(auto, unfolding(crate::specs::Spelling::at_spelling))]
pub fn at_spelling(at_word: AtWord) -> &'static [u8]
    ensures { result.now ≡ at_spelling at_word }
{
    match at_word {
        AtWord::Other => b"",
        AtWord::HasStorage => b"_hasStorage",
        AtWord::SilWeak => b"sil_weak",
        AtWord::SilUnowned => b"sil_unowned",
        AtWord::Convention => b"convention",
        AtWord::Owned => b"owned",
        AtWord::Guaranteed => b"guaranteed",
        AtWord::Inout => b"inout",
        AtWord::In => b"in",
        AtWord::InGuaranteed => b"in_guaranteed",
        AtWord::Out => b"out",
    }
}

/// How a piece of punctuation is spelled.
#[tactic(auto, unfolding(crate::specs::Spelling::punctuation_spelling))]
pub fn punctuation_spelling(punctuation: Punctuation) -> &'static [u8]
    ensures { result.now ≡ punctuation_spelling punctuation }
{
    match punctuation {
        Punctuation::LeftBrace => b"{",
        Punctuation::RightBrace => b"}",
        Punctuation::LeftParen => b"(",
        Punctuation::RightParen => b")",
        Punctuation::LeftBracket => b"[",
        Punctuation::RightBracket => b"]",
        Punctuation::Less => b"<",
        Punctuation::Greater => b">",
        Punctuation::Comma => b",",
        Punctuation::Colon => b":",
        Punctuation::Dot => b".",
        Punctuation::Question => b"?",
        Punctuation::Star => b"*",
        Punctuation::Equals => b"=",
        Punctuation::Bang => b"!",
        Punctuation::Dollar => b"$",
        Punctuation::Hash => b"#",
        Punctuation::Arrow => b"->",
    }
}

#[tactic(auto, unfolding(crate::specs::Spelling::known_at_word, crate::specs::Spelling::at_words))]
fn known_at_word(name: &[u8]) -> Option<AtWord>
    ensures { result ≡ known_at_word name.now }
{
    let words: &[AtWord] = &[
        AtWord::HasStorage,
        AtWord::SilWeak,
        AtWord::SilUnowned,
        AtWord::Convention,
        AtWord::Owned,
        AtWord::Guaranteed,
        AtWord::Inout,
        AtWord::In,
        AtWord::InGuaranteed,
        AtWord::Out,
    ];
    words
        .iter()
        .copied()
        .find(|word| at_spelling(*word) == name)
}

/// The name with `@` that these bytes spell, without the `@`.
#[tactic(auto, unfolding(crate::specs::Spelling::at_word_of))]
pub fn at_word(name: &[u8]) -> AtWord
    ensures value { result ≡ at_word_of name.now }

    ensures each { (a : AtWord) → at_spelling a ≡ name.now → result ≡ a }
    ensures known { (result ≡ AtWord.Other) ⊎ (at_spelling result ≡ name.now) }
{
    known_at_word(name).unwrap_or(AtWord::Other)
}

/// The punctuation of one byte.
#[tactic(auto, unfolding(crate::specs::Spelling::punctuation_of, crate::specs::Spelling::signs, crate::specs::Spelling::punctuation_spelling))]
fn mark(byte: u8) -> Option<Punctuation>
    ensures { result ≡ punctuation_of (byte ∷ []) }
{
    match byte {
        b'{' => Some(Punctuation::LeftBrace),
        b'}' => Some(Punctuation::RightBrace),
        b'(' => Some(Punctuation::LeftParen),
        b')' => Some(Punctuation::RightParen),
        b'[' => Some(Punctuation::LeftBracket),
        b']' => Some(Punctuation::RightBracket),
        b'<' => Some(Punctuation::Less),
        b'>' => Some(Punctuation::Greater),
        b',' => Some(Punctuation::Comma),
        b':' => Some(Punctuation::Colon),
        b'.' => Some(Punctuation::Dot),
        b'?' => Some(Punctuation::Question),
        b'*' => Some(Punctuation::Star),
        b'=' => Some(Punctuation::Equals),
        b'!' => Some(Punctuation::Bang),
        b'$' => Some(Punctuation::Dollar),
        b'#' => Some(Punctuation::Hash),
        _ => None,
    }
}

/// The punctuation that these bytes spell, if they spell one.
pub fn punctuation(bytes: &[u8]) -> Option<Punctuation>
    ensures value { result ≡ punctuation_of bytes.now }

    ensures known { IfSome result (λ m. punctuation_spelling m ≡ bytes.now) }
{
    if bytes.len() == 1 {
        return mark(bytes[0]);
    }
    if bytes == punctuation_spelling(Punctuation::Arrow) {
        Some(Punctuation::Arrow)
    } else {
        None
    }
}
