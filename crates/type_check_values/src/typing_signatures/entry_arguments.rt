//! Whether the entry has the arguments that the signature tells of.

ghost use Rattle.std.specs.Prelude.{◌≡◌};
ghost use Rattle.argument_conventions.specs.Arguments.{argument_type, arguments_of, as_told};
ghost use Rattle.sil_ast.specs.declared.type_name.TypeName.TheVariants as type_of;
ghost use Rattle.sil_types.specs.Typing.Same.{all_pairs, is_same_type};
ghost use Rattle.sil_types.specs.Typing.SignatureRules as rules;

use argument_conventions::{ArgumentConvention, FunctionArgument, all_arguments};
use sil_ast::{ArgKind, BlockArg, Form, Function, Signature, TypeName};
use sil_types::{is_external, same_type};

/// Whether the function has no body, or an entry with an argument for each `@out` result and then for each parameter, in order.
pub(crate) fn has_entry_arguments(f: &Function) -> bool
    ensures { result ≡ rules.has_entry_arguments f.now }
{
    if is_external(f.form) {
        return true;
    }
    are_arguments_for(f.form, f.args_of(0), &f.signature)
}

fn are_arguments_for(form: Form, args: &[BlockArg], signature: &Signature) -> bool
    ensures { result ≡ all_pairs (rules.is_argument_for form) args.now (arguments_of signature.now) }
{
    let mut rest = all_arguments(signature);
    for arg in args {
        let Some(next) = rest.next() else {
            return false;
        };
        if !is_argument_for(form, arg, next.argument) {
            return false;
        }
        rest = next.rest;
    }
    rest.next().is_none()
}

fn is_argument_for(form: Form, arg: &BlockArg, argument: FunctionArgument<'_>) -> bool
    ensures { result ≡ rules.is_argument_for form arg.now (as_told argument.entry) }
{
    is_argument_type(&arg.ty, argument) && is_annotated_for(form, arg, argument.convention)
}

/// Whether the type is that of what is handed over for the argument.
fn is_argument_type(ty: &TypeName, argument: FunctionArgument<'_>) -> bool
    ensures { result ≡ is_same_type ty.now (argument_type (as_told argument.entry)) }
{
    match argument.convention {
        ArgumentConvention::Plain => same_type(ty, argument.ty),
        ArgumentConvention::Owned => same_type(ty, argument.ty),
        ArgumentConvention::Guaranteed => same_type(ty, argument.ty),
        ArgumentConvention::Address(_) => is_address_of(ty, argument.ty),
    }
}

fn is_address_of(ty: &TypeName, target: &TypeName) -> bool
    ensures { result ≡ is_same_type ty.now (type_of.Address target.now) }
{
    match ty {
        TypeName::Address(of) => same_type(of.get(), target),
        _ => false,
    }
}

/// In ownership form the argument is annotated by its convention; in lowered form it doesn't count.
fn is_annotated_for(form: Form, arg: &BlockArg, convention: ArgumentConvention) -> bool
    ensures { result ≡ rules.is_annotated_for form arg.now convention }
{
    match form {
        Form::Ossa => is_same_kind(arg.kind, annotation_of(convention)),
        Form::Lowered => true,
        Form::External => true,
    }
}

fn is_same_kind(a: ArgKind, b: ArgKind) -> bool
    ensures { result ≡ rules.is_same_kind a b }
{
    a == b
}

fn annotation_of(convention: ArgumentConvention) -> ArgKind
    ensures { result ≡ rules.annotation_of convention }
{
    match convention {
        ArgumentConvention::Plain => ArgKind::Plain,
        ArgumentConvention::Owned => ArgKind::Owned,
        ArgumentConvention::Guaranteed => ArgKind::Guaranteed,
        ArgumentConvention::Address(_) => ArgKind::Plain,
    }
}
