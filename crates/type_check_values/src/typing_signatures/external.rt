//! Functions without a body.

ghost use Rattle.std.specs.Prelude.{◌≡◌};
ghost use Rattle.std.specs.List.{list_all};
ghost use Rattle.sil_types.specs.Typing.SignatureRules as rules;

use argument_conventions::{ArgumentConvention, convention_of};
use sil_ast::{Function, Param};
use sil_types::is_external;
use sil_types::shapes::is_integer;

/// Whether the function has no body, and has a parameter that isn't a plain builtin integer, or a result.
#[tactic(auto, unfolding(sil_types::specs::Typing::SignatureRules::is_no_output_call))]
pub fn is_no_output_call(f: &Function) -> bool
    ensures { result ≡ rules.is_no_output_call f.now }
{
    if !is_external(f.form) {
        return false;
    }
    if !are_plain_integers(f.signature.params.as_slice()) {
        return true;
    }
    !f.signature.results.as_slice().is_empty()
}

fn are_plain_integers(params: &[Param]) -> bool
    ensures { result ≡ list_all rules.is_plain_integer params.now }
{
    for param in params {
        if !is_plain_integer(param) {
            return false;
        }
    }
    true
}

fn is_plain_integer(param: &Param) -> bool
    ensures { result ≡ rules.is_plain_integer param.now }
{
    match convention_of(param.passing) {
        ArgumentConvention::Plain => is_integer(&param.ty),
        ArgumentConvention::Owned => false,
        ArgumentConvention::Guaranteed => false,
        ArgumentConvention::Address(_) => false,
    }
}
