//! The arguments of a function: the places of its `@out` results, and then its parameters.

ghost use Rattle.std.specs.Prelude.{◌≡◌, filter, length, map, option_map, slice_get};
ghost use Rattle.std.specs.List.{flat_map};
ghost use Rattle.argument_conventions.specs.Arguments as arguments;

use crate::convention::{AddressConvention, ArgumentConvention};
use sil_ast::{Given, Param, Passing, Signature, TypeName};

/// One argument: how it is handed over, and the type of its value, or of what is at its address.
#[derive(Clone, Copy, Drop)]
pub struct FunctionArgument<'s> {
    pub convention: ArgumentConvention,
    pub ty: &'s TypeName,
}

/// How a parameter is handed over.
pub fn convention_of(passing: Passing) -> ArgumentConvention
    ensures { result ≡ arguments.convention_of passing }
{
    match passing {
        Passing::Plain => ArgumentConvention::Plain,
        Passing::Owned => ArgumentConvention::Owned,
        Passing::Guaranteed => ArgumentConvention::Guaranteed,
        Passing::Inout => ArgumentConvention::Address(AddressConvention::Inout),
        Passing::In => ArgumentConvention::Address(AddressConvention::In),
        Passing::InGuaranteed => ArgumentConvention::Address(AddressConvention::InGuaranteed),
    }
}

/// How many of the results are given by `return`.
pub fn direct_count(results: &[Given]) -> usize
    ensures { result ≡ length (filter arguments.is_direct results.now) }
{
    results.iter().filter(|given| !given.out).count()
}

/// How many of the results are put in places of the caller's.
fn out_count(results: &[Given]) -> usize
    ensures { result ≡ length (flat_map arguments.out_argument results.now) }
{
    results.len() - direct_count(results)
}

/// How many arguments a function has.
pub fn argument_count(signature: &Signature) -> usize
    ensures { result ≡ length (arguments.arguments_of signature.now) }
{
    let results = signature.results.as_slice();
    let params = signature.params.as_slice();
    out_count(results) + params.len()
}

/// The `@out` result with this number among those, if there is one.
fn out_result(results: &[Given], number: usize) -> Option<FunctionArgument<'_>>
    ensures { option_map arguments.as_told result ≡ slice_get (flat_map arguments.out_argument results.now) number }
{
    let mut left = number;
    for given in results {
        if given.out {
            if left == 0 {
                return Some(FunctionArgument {
                    convention: ArgumentConvention::Address(AddressConvention::Out),
                    ty: &given.ty,
                });
            }
            left -= 1;
        }
    }
    None
}

fn parameter(params: &[Param], number: usize) -> Option<FunctionArgument<'_>>
    ensures { option_map arguments.as_told result ≡ slice_get (map arguments.param_argument params.now) number }
{
    match params.get(number) {
        None => None,
        Some(param) => Some(FunctionArgument {
            convention: convention_of(param.passing),
            ty: &param.ty,
        }),
    }
}

/// The argument with this number, if a function of the signature has one.
pub fn argument(signature: &Signature, number: usize) -> Option<FunctionArgument<'_>>
    ensures { option_map arguments.as_told result ≡ slice_get (arguments.arguments_of signature.now) number }
{
    let results = signature.results.as_slice();
    let outs = out_count(results);
    if number < outs {
        out_result(results, number)
    } else {
        parameter(signature.params.as_slice(), number - outs)
    }
}
