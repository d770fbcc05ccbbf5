//! Which words in brackets fit the type at an address, in functions in ownership form.

ghost use Rattle.std.specs.Prelude.{◌≡◌};
ghost use Rattle.sil_types.specs.Typing.FormRules as rules;

use crate::typing_forms::parts::written_target;
use instruction_table::{TypeWords, type_words_of};
use sil_ast::{Form, Function, Inst, Qualifier, TypeName};
use sil_types::TypeTable;
use sil_types::shapes::{is_nontrivial, is_trivial_object};

/// Whether, in ownership form, the word in brackets isn't one for the type at the instruction's address, or there is none where
/// one is asked for.
pub fn has_wrong_qualifier(table: &TypeTable, f: &Function, inst: &Inst) -> bool
    ensures { result ≡ rules.has_wrong_qualifier table.now f.now inst.now }
{
    is_owned_form(f.form) && !has_word_by(type_words_of(inst.op), table, inst)
}

fn is_owned_form(form: Form) -> bool
    ensures { result ≡ rules.is_owned_form form }
{
    match form {
        Form::Ossa => true,
        Form::Lowered | Form::External => false,
    }
}

fn has_word_by(words: TypeWords, table: &TypeTable, inst: &Inst) -> bool
    ensures { result ≡ rules.has_word_by words table.now inst.now }
{
    match words {
        TypeWords::AnyType => true,
        TypeWords::ReadWords => match written_target(inst, 0) {
            Some(ty) => is_read_word(table, inst.qualifier, ty),
            None => false,
        },
        TypeWords::WriteWords => match written_target(inst, 1) {
            Some(ty) => is_write_word(table, inst.qualifier, ty),
            None => false,
        },
    }
}

fn is_read_word(table: &TypeTable, word: Qualifier, ty: &TypeName) -> bool
    ensures { result ≡ rules.is_read_word table.now word ty.now }
{
    match word {
        Qualifier::Copy | Qualifier::Take => is_nontrivial(table, ty),
        Qualifier::Trivial => is_trivial_object(table, ty),
        Qualifier::Plain | Qualifier::Init | Qualifier::Assign => false,
    }
}

fn is_write_word(table: &TypeTable, word: Qualifier, ty: &TypeName) -> bool
    ensures { result ≡ rules.is_write_word table.now word ty.now }
{
    match word {
        Qualifier::Init | Qualifier::Assign => is_nontrivial(table, ty),
        Qualifier::Trivial => is_trivial_object(table, ty),
        Qualifier::Plain | Qualifier::Copy | Qualifier::Take => false,
    }
}
