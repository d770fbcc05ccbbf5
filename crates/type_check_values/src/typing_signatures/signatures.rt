//! What functions take and give: at themselves, where they are named and called, and where they return.

ghost use Rattle.std.specs.Prelude.{◌≡◌, map, option_and_then};
ghost use Rattle.std.specs.Option.{option_copied};
ghost use Rattle.sil_types.specs.sil_types_declarations.TypeDefinitions.Mentions.{direct_type, direct_types};
ghost use Rattle.sil_types.specs.Typing.RowTypes.{written};
ghost use Rattle.sil_types.specs.Typing.Same.{all_pairs, applied, is_same_type};
ghost use Rattle.sil_types.specs.Typing.SignatureRules as rules;

use crate::typing_signatures::callees::callee;
use crate::typing_signatures::conventions::has_fitting_conventions;
use crate::typing_signatures::entry_arguments::has_entry_arguments;
use argument_conventions::next_direct;
use instruction_table::Op;
use sil_ast::{FuncId, Function, Given, Inst, Module, Signature, TypeName};
use sil_types::{TypeTable, only_direct_type, same_signature, same_type};

/// Whether a convention doesn't fit its type, or the entry has other arguments than the signature tells of.
#[tactic(auto, unfolding(sil_types::specs::Typing::SignatureRules::has_wrong_signature))]
pub fn has_wrong_signature(table: &TypeTable, f: &Function) -> bool
    ensures { result ≡ rules.has_wrong_signature table.now f.now }
{
    !(has_fitting_conventions(table, &f.signature) && has_entry_arguments(f))
}

/// Whether the signature of a `function_ref` or an `apply` isn't that of the function that it names or calls, or a `return` gives
/// another type than the signature of `f`. `functions` has the functions that the values of `f` stand for.
#[tactic(auto, unfolding(sil_types::specs::Typing::SignatureRules::differs_from_signature))]
pub fn differs_from_signature(
    m: &Module,
    f: &Function,
    functions: &[Option<FuncId>],
    inst: &Inst,
) -> bool
    ensures { result ≡ rules.differs_from_signature m.now f.now functions.now inst.now }
{
    match inst.op {
        Op::FunctionRef => !has_signature_of(m, inst.function, inst),
        Op::Apply => !has_signature_of(m, callee(functions, inst), inst),
        Op::Return => !returns_what_is_given(f, inst),
        _ => false,
    }
}

/// Whether the signature that is written in the instruction is the function's, where there is a function.
fn has_signature_of(m: &Module, function: Option<FuncId>, inst: &Inst) -> bool
    ensures { result ≡ rules.has_signature_of m.now function inst.now }
{
    match &inst.signature {
        None => true,
        Some(written) => match signature_of(m, function) {
            None => true,
            Some(named) => same_signature(written.get(), named),
        },
    }
}

fn signature_of(m: &Module, function: Option<FuncId>) -> Option<&Signature>
    ensures { option_copied result ≡ option_and_then (rules.signature_of m.now) function }
{
    match function {
        None => None,
        Some(function) => match m.functions.get(function.0 as usize) {
            None => None,
            Some(named) => Some(&named.signature),
        },
    }
}

fn returns_what_is_given(f: &Function, inst: &Inst) -> bool
    ensures { result ≡ rules.returns_what_is_given f.now inst.now }
{
    match written_first(inst) {
        None => false,
        Some(ty) => is_given_type(f.signature.results.as_slice(), ty),
    }
}

/// The type written at the first operand.
fn written_first(inst: &Inst) -> Option<&TypeName>
    ensures { option_copied result ≡ written 0 inst.now }
{
    match inst.operands.get(0) {
        None => None,
        Some(operand) => operand.ty.as_ref(),
    }
}

/// Whether the direct results together have the type: one is its type, and other numbers of them are a tuple.
fn is_given_type(results: &[Given], ty: &TypeName) -> bool
    ensures { result ≡ is_same_type (direct_type results.now) ty.now }
{
    match only_direct_type(results) {
        Some(only) => same_type(only, ty),
        None => match ty {
            TypeName::Tuple(elements) => are_given_types(results, elements.get().as_slice()),
            _ => false,
        },
    }
}

fn are_given_types(results: &[Given], types: &[TypeName]) -> bool
    ensures { result ≡ all_pairs applied (map is_same_type (direct_types results.now)) types.now }
{
    let mut rest = results;
    for ty in types {
        let Some(next) = next_direct(rest) else {
            return false;
        };
        if !same_type(&next.given.ty, ty) {
            return false;
        }
        rest = next.rest;
    }
    next_direct(rest).is_none()
}
