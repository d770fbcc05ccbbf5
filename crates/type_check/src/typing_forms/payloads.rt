//! Whether the arguments of the blocks that a `switch_enum` goes to are what its cases carry.

ghost use Rattle.std.specs.Prelude.{◌≡◌, map};
ghost use Rattle.std.specs.List.{list_all};
ghost use Rattle.std.specs.Option.{option_copied, option_to_list};
ghost use Rattle.sil_types.specs.Typing.Same.{are_same_types};
ghost use Rattle.sil_types.specs.Typing.SwitchRules as rules;
ghost use Rattle.sil_types.specs.Typing.Values.{arg_type};

use crate::typing_forms::enum_cases::case_of_edge;
use crate::typing_forms::parts::is_lowered;
use sil_ast::{BlockArg, Edge, Form, Function, TypeName};
use sil_types::{TypeTable, same_type};

/// Whether each case goes to a block with its payload as the argument, or none where it has none.
pub(crate) fn fit_cases(table: &TypeTable, f: &Function, ty: &TypeName, edges: &[Edge]) -> bool
    ensures { result ≡ list_all (rules.fits_case table.now f.now ty.now) edges.now }
{
    edges.iter().all(|edge| fits_case(table, f, ty, edge))
}

/// A case that the enum doesn't have fits, and so does the default.
fn fits_case(table: &TypeTable, f: &Function, ty: &TypeName, edge: &Edge) -> bool
    ensures { result ≡ rules.fits_case table.now f.now ty.now edge.now }
{
    match case_of_edge(table, ty, edge) {
        Some(payload) => are_payload(f.args_of(edge.block.0 as usize), payload.ty),
        None => true,
    }
}

/// Whether the default goes to a block with the enum as its argument or none.
pub(crate) fn fit_defaults(f: &Function, ty: &TypeName, edges: &[Edge]) -> bool
    ensures { result ≡ list_all (rules.fits_default f.now ty.now) edges.now }
{
    edges.iter().all(|edge| fits_default(f, ty, edge))
}

/// Each case fits.
fn fits_default(f: &Function, ty: &TypeName, edge: &Edge) -> bool
    ensures { result ≡ rules.fits_default f.now ty.now edge.now }
{
    edge.case_of.is_some() || is_default_argument(f.form, ty, f.args_of(edge.block.0 as usize))
}

/// Whether the arguments are the payload of a case, or none where it has none.
fn are_payload(args: &[BlockArg], payload: Option<&TypeName>) -> bool
    ensures { result ≡ are_same_types (map arg_type args.now) (option_to_list (option_copied payload.entry)) }
{
    match (payload, args) {
        (Some(ty), [arg]) => same_type(&arg.ty, ty),
        (None, []) => true,
        _ => false,
    }
}

/// Whether the arguments are the enum itself, which a lowered function doesn't hand on, or none.
fn is_default_argument(form: Form, ty: &TypeName, args: &[BlockArg]) -> bool
    ensures { result ≡ rules.is_default_argument form ty.now args.now }
{
    match args {
        [] => true,
        [arg] => !is_lowered(form) && same_type(&arg.ty, ty),
        _ => false,
    }
}
