//! The numbers of the classes, by which they are compared.

ghost use Rattle.std.specs.Prelude.{◌≡◌};
ghost use Rattle.instruction_table.specs.declared.op.Op.{Op};
ghost use Rattle.sil_grammar_classes.specs.declared.classes.Keyword.TheVariants.{Mnemonic};
ghost use Rattle.sil_grammar_shape.specs.inner.ClassNumbers.{at_number, class_number, keyword_number, punctuation_number};

use sil_grammar_classes::{AtWord, Class, Keyword, Punctuation};

/// The number of a word that is no mnemonic, and that of the first mnemonic for all of them.
#[tactic(auto, unfolding(crate::specs::inner::ClassNumbers::keyword_number))]
fn fixed_number(word: Keyword) -> u8
    ensures mnemonic { (o : Op) → word ≡ Mnemonic o → result ≡ 46 }
    ensures fixed { ((o : Op) → word ≡ Mnemonic o → ⊥) → result ≡ keyword_number word }
{
    match word {
        Keyword::Other => 0,
        Keyword::SilStage => 1,
        Keyword::Raw => 2,
        Keyword::Canonical => 3,
        Keyword::Import => 4,
        Keyword::Final => 5,
        Keyword::Class => 6,
        Keyword::Sil => 7,
        Keyword::SilVtable => 8,
        Keyword::Deinit => 9,
        Keyword::Init => 10,
        Keyword::Weak => 11,
        Keyword::Unowned => 12,
        Keyword::Var => 13,
        Keyword::Let => 14,
        Keyword::Get => 15,
        Keyword::Set => 16,
        Keyword::Case => 17,
        Keyword::Builtin => 18,
        Keyword::Optional => 19,
        Keyword::Int1 => 20,
        Keyword::Int8 => 21,
        Keyword::Int16 => 22,
        Keyword::Int32 => 23,
        Keyword::Int64 => 24,
        Keyword::Hidden => 25,
        Keyword::Private => 26,
        Keyword::Shared => 27,
        Keyword::Public => 28,
        Keyword::Thin => 29,
        Keyword::Method => 30,
        Keyword::To => 31,
        Keyword::Default => 32,
        Keyword::Enumelt => 33,
        Keyword::Lexical => 34,
        Keyword::VarDecl => 35,
        Keyword::Copy => 36,
        Keyword::Take => 37,
        Keyword::Trivial => 38,
        Keyword::Assign => 39,
        Keyword::Initialization => 40,
        Keyword::Name => 41,
        Keyword::Argno => 42,
        Keyword::Expr => 43,
        Keyword::OpDeref => 44,
        Keyword::Destroyer => 45,
        Keyword::Mnemonic(_) => 46,
    }
}

#[tactic(auto, unfolding(crate::specs::inner::ClassNumbers::keyword_number))]
fn keyword_number(word: Keyword) -> u8
    ensures { result ≡ keyword_number word }
{
    let fixed = fixed_number(word);
    match word {
        Keyword::Mnemonic(op) => fixed + op as u8,
        _ => fixed,
    }
}

#[tactic(auto, unfolding(crate::specs::inner::ClassNumbers::at_number))]
fn at_number(word: AtWord) -> u8
    ensures { result ≡ at_number word }
{
    word as u8
}

#[tactic(auto, unfolding(crate::specs::inner::ClassNumbers::punctuation_number))]
fn punctuation_number(punctuation: Punctuation) -> u8
    ensures { result ≡ punctuation_number punctuation }
{
    punctuation as u8
}

/// A number of its own for each class.
#[tactic(auto, unfolding(crate::specs::inner::ClassNumbers::class_number))]
pub(crate) fn class_number(class: Class) -> u16
    ensures { result ≡ class_number class }
{
    match class {
        Class::Percent => 1,
        Class::Number => 2,
        Class::BuiltinText => 3,
        Class::OtherText => 4,
        Class::At(word) => 5 + at_number(word) as u16,
        Class::Punctuation(punctuation) => 16 + punctuation_number(punctuation) as u16,
        Class::Word(word) => 34 + keyword_number(word) as u16,
    }
}
