//! The arguments of a function, and its direct results, one after another.

ghost use Rattle.std.specs.Prelude.{◌≡◌};
ghost use Rattle.std.specs.List.{flat_map};
ghost use Rattle.argument_conventions.specs.Arguments as arguments;
ghost use Rattle.argument_conventions.specs.inner.Remaining as remaining;

use crate::arguments::{FunctionArgument, convention_of};
use crate::convention::{AddressConvention, ArgumentConvention};
use sil_ast::{Given, Param, Signature};

/// The first of some results, with those behind it.
#[derive(Clone, Copy)]
pub struct NextResult<'s> {
    pub given: &'s Given,
    pub rest: &'s [Given],
}

/// Arguments that are still to come.
#[derive(Clone, Copy)]
pub struct RemainingArguments<'s> {
    /// Of these results those with `@out`.
    results: &'s [Given],
    params: &'s [Param],
}

/// The first of some arguments, with those behind it.
#[derive(Clone, Copy)]
pub struct NextArgument<'s> {
    pub argument: FunctionArgument<'s>,
    pub rest: RemainingArguments<'s>,
}

/// The first of the direct results.
pub fn next_direct(results: &[Given]) -> Option<NextResult<'_>>
    ensures { arguments.direct_results results.now ≡ remaining.next_direct_told result }
{
    for (i, given) in results.iter().enumerate() {
        if !given.out {
            return Some(NextResult {
                given,
                rest: &results[i + 1..],
            });
        }
    }
    None
}

/// The first of the results with `@out`.
fn next_out(results: &[Given]) -> Option<NextResult<'_>>
    ensures { flat_map arguments.out_argument results.now ≡ remaining.next_out_told result }
{
    for (i, given) in results.iter().enumerate() {
        if given.out {
            return Some(NextResult {
                given,
                rest: &results[i + 1..],
            });
        }
    }
    None
}

/// All arguments of a function.
pub fn all_arguments(signature: &Signature) -> RemainingArguments<'_>
    ensures { remaining.remaining_told result ≡ arguments.arguments_of signature.now }
{
    RemainingArguments {
        results: signature.results.as_slice(),
        params: signature.params.as_slice(),
    }
}

fn next_param(params: &[Param]) -> Option<NextArgument<'_>>
    ensures { remaining.next_told result ≡ remaining.params_told params.now }
{
    match params {
        [] => None,
        [param, rest @ ..] => Some(NextArgument {
            argument: FunctionArgument {
                convention: convention_of(param.passing),
                ty: &param.ty,
            },
            rest: RemainingArguments {
                results: &[],
                params: rest,
            },
        }),
    }
}

impl<'s> RemainingArguments<'s> {
    /// The first of them. Going through all takes linear time.
    pub fn next(&self) -> Option<NextArgument<'s>>
        ensures { remaining.remaining_told self.now ≡ remaining.next_told result }
    {
        match next_out(self.results) {
            Some(next) => Some(NextArgument {
                argument: FunctionArgument {
                    convention: ArgumentConvention::Address(AddressConvention::Out),
                    ty: &next.given.ty,
                },
                rest: RemainingArguments {
                    results: next.rest,
                    params: self.params,
                },
            }),
            None => next_param(self.params),
        }
    }
}
