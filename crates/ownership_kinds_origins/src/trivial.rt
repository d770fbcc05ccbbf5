//! Whether types that are put together from what a module holds are trivial.

ghost use Rattle.std.specs.Prelude.{◌≡◌, option_map, slice_get, unwrap_or, []};
ghost use Rattle.std.specs.List.{list_all};
ghost use Rattle.sil_types.specs.sil_types_declarations.TypeDefinitions.Measures.{is_trivial};
ghost use Rattle.sil_types.specs.sil_types_declarations.TypeDefinitions.Mentions.{direct_types};
ghost use Rattle.sil_types.specs.Typing.RowTypes.{types_of};
ghost use Rattle.type_check_rows.specs.inner.Views.{made_told, view_told};
ghost use Rattle.ownership_kinds_origins.specs.Origins.{is_trivial_or_untyped};

use sil_ast::{Given, Operand};
use sil_types::TypeTable;
use type_check_rows::{Made, TypeView};

fn is_trivial_operand(table: &TypeTable, operand: &Operand) -> bool
    ensures { result ≡ list_all (is_trivial table.now) (types_of operand.now) }
{
    match &operand.ty {
        Some(ty) => table.is_trivial(ty),
        None => true,
    }
}

fn are_trivial_operands(table: &TypeTable, operands: &[Operand]) -> bool
    ensures { result ≡ list_all (λ o. list_all (is_trivial table.now) (types_of o)) operands.now }
{
    for operand in operands {
        if !is_trivial_operand(table, operand) {
            return false;
        }
    }
    true
}

/// Whether the direct results are of trivial types.
fn are_trivial_results(table: &TypeTable, results: &[Given]) -> bool
    ensures { result ≡ list_all (is_trivial table.now) (direct_types results.now) }
{
    for given in results {
        if !given.out && !table.is_trivial(&given.ty) {
            return false;
        }
    }
    true
}

/// Whether the type that the view tells holds no reference. An address is taken as its target.
fn is_trivial_view(table: &TypeTable, view: TypeView) -> bool
    ensures { result ≡ is_trivial table.now (view_told view.entry) }
{
    match view {
        TypeView::Written(ty) => table.is_trivial(ty),
        TypeView::AddressOf(ty) => table.is_trivial(ty),
        TypeView::WeakAddress(_) => false,
        TypeView::UnownedAddress(_) => false,
        TypeView::TupleOf(operands) => are_trivial_operands(table, operands),
        TypeView::GivenBy(results) => are_trivial_results(table, results),
    }
}

/// Whether the `k`-th of the results that a row gives is of a trivial type, or has no type.
pub(crate) fn is_trivial_result(table: &TypeTable, made: Option<Made>, k: usize) -> bool
    ensures { result ≡ is_trivial_or_untyped table.now (slice_get (unwrap_or (option_map made_told made.entry) []) k) }
{
    let Some(made) = made else {
        return true;
    };
    match made.get(k) {
        Some(view) => is_trivial_view(table, view),
        None => true,
    }
}
