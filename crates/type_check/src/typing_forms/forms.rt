//! Which instructions and annotations stand in functions of which form, and whether all functions with a body have one form.

ghost use Rattle.std.specs.Prelude.{◌≡◌};
ghost use Rattle.std.specs.List.{list_any};
ghost use Rattle.sil_types.specs.Typing.FormRules as rules;

use crate::typing_forms::parts::{is_lowered, written_target};
use instruction_table::{InForms, forms_of};
use sil_ast::{ArgKind, BlockArg, Form, Function, Inst, Module, Qualifier};
use sil_types::is_external;
use sil_types::shapes::is_storage;

/// The form of the first function that has a body.
pub fn first_form(m: &Module) -> Option<Form>
    ensures { result ≡ rules.first_form m.now }
{
    for function in m.functions.as_slice() {
        if !is_external(function.form) {
            return Some(function.form);
        }
    }
    None
}

fn is_same_form(a: Form, b: Form) -> bool
    ensures { result ≡ rules.is_same_form a b }
{
    a == b
}

/// Whether a function with a body has another form than the module's first one with a body. That form is `first`.
pub fn mixes_forms(first: Option<Form>, f: &Function) -> bool
    ensures { result ≡ rules.has_other_form first f.now }
{
    match first {
        Some(first) => !is_external(f.form) && !is_same_form(f.form, first),
        None => false,
    }
}

/// Whether an instruction, or at a block's first point an annotation of the block's arguments, isn't of its function's form.
pub fn is_of_other_form(f: &Function, block: usize, index: usize, inst: &Inst) -> bool
    ensures { result ≡ rules.is_of_other_form f.now block index inst.now }
{
    !is_of_form(f.form, inst) || is_annotated_at(f, block, index)
}

fn is_of_form(form: Form, inst: &Inst) -> bool
    ensures { result ≡ rules.is_of_form form inst.now }
{
    match form {
        Form::Ossa => may_stand_owned(forms_of(inst.op)),
        Form::Lowered => may_stand_lowered(forms_of(inst.op), inst),
        Form::External => true,
    }
}

fn may_stand_owned(forms: InForms) -> bool
    ensures { result ≡ rules.may_stand_owned forms }
{
    match forms {
        InForms::BothForms => true,
        InForms::OwnershipForm => true,
        InForms::LoweredForm => false,
        InForms::ByWord => true,
        InForms::ByStorage => true,
    }
}

fn may_stand_lowered(forms: InForms, inst: &Inst) -> bool
    ensures { result ≡ rules.may_stand_lowered forms inst.now }
{
    match forms {
        InForms::BothForms => true,
        InForms::OwnershipForm => false,
        InForms::LoweredForm => true,
        InForms::ByWord => has_no_word(inst.qualifier),
        InForms::ByStorage => is_at_storage(inst),
    }
}

fn has_no_word(word: Qualifier) -> bool
    ensures { result ≡ rules.has_no_word word }
{
    match word {
        Qualifier::Plain => true,
        Qualifier::Copy
        | Qualifier::Take
        | Qualifier::Trivial
        | Qualifier::Init
        | Qualifier::Assign => false,
    }
}

/// Whether the instruction's operand is the address of weak or unowned storage.
fn is_at_storage(inst: &Inst) -> bool
    ensures { result ≡ rules.is_at_storage inst.now }
{
    match written_target(inst, 0) {
        Some(ty) => is_storage(ty),
        None => false,
    }
}

/// Whether the point is the first of a block of a lowered function, and an argument of the block is annotated.
fn is_annotated_at(f: &Function, block: usize, index: usize) -> bool
    ensures { result ≡ rules.is_annotated_at f.now block index }
{
    is_lowered(f.form) && index == 0 && any_annotated(f.args_of(block))
}

fn any_annotated(args: &[BlockArg]) -> bool
    ensures { result ≡ list_any rules.is_annotated args.now }
{
    args.iter().any(|arg| is_annotation(arg.kind))
}

fn is_annotation(kind: ArgKind) -> bool
    ensures { result ≡ rules.is_annotation kind }
{
    match kind {
        ArgKind::Plain => false,
        ArgKind::Owned | ArgKind::Guaranteed => true,
    }
}
