//! Whether conventions fit their types.

ghost use Rattle.std.specs.Prelude.{◌≡◌};
ghost use Rattle.std.specs.List.{list_all};
ghost use Rattle.sil_types.specs.Typing.Same as same;
ghost use Rattle.sil_types.specs.Typing.SignatureRules as rules;

use argument_conventions::{ArgumentConvention, convention_of};
use sil_ast::{Given, Param, Signature};
use sil_types::TypeTable;
use sil_types::shapes::{is_nontrivial, is_object, is_trivial_object};

/// Whether each parameter's word fits its type, and so does each result's: `@out` fits any, and else there is `@owned` exactly where
/// the type isn't trivial.
pub(crate) fn has_fitting_conventions(table: &TypeTable, signature: &Signature) -> bool
    ensures { result ≡ rules.has_fitting_conventions table.now signature.now }
{
    do_params_fit(table, signature.params.as_slice())
        && do_results_fit(table, signature.results.as_slice())
}

fn do_params_fit(table: &TypeTable, params: &[Param]) -> bool
    ensures { result ≡ list_all (rules.fits_param table.now) params.now }
{
    for param in params {
        if !fits_param(table, param) {
            return false;
        }
    }
    true
}

fn do_results_fit(table: &TypeTable, results: &[Given]) -> bool
    ensures { result ≡ list_all (rules.fits_result table.now) results.now }
{
    for given in results {
        if !fits_result(table, given) {
            return false;
        }
    }
    true
}

fn fits_param(table: &TypeTable, param: &Param) -> bool
    ensures { result ≡ rules.fits_param table.now param.now }
{
    match convention_of(param.passing) {
        ArgumentConvention::Plain => is_trivial_object(table, &param.ty),
        ArgumentConvention::Owned => is_nontrivial(table, &param.ty),
        ArgumentConvention::Guaranteed => is_nontrivial(table, &param.ty),
        ArgumentConvention::Address(_) => is_object(&param.ty),
    }
}

fn fits_result(table: &TypeTable, given: &Given) -> bool
    ensures { result ≡ rules.fits_result table.now given.now }
{
    is_object(&given.ty) && (given.out || is_same_flag(given.owned, !table.is_trivial(&given.ty)))
}

fn is_same_flag(a: bool, b: bool) -> bool
    ensures { result ≡ same.is_same_flag a b }
{
    a == b
}
