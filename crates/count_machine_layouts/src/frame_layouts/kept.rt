//! What a frame keeps of a value, by its type.

ghost use Rattle.std.specs.Prelude.{◌≡◌, option_map};
ghost use Rattle.holder_model_typing.specs.holder_model.RunTyping.Forms.{form_by, form_with};
ghost use Rattle.holder_model_values.specs.RunValues.Shapes.{shape_of};
ghost use Rattle.holder_model_values.specs.RunValues.Shapes as shapes;
ghost use Rattle.sil_ast.specs.declared.type_name.TypeName.TheVariants as type;
ghost use Rattle.sil_types.specs.Typing.Shapes as typing;
ghost use Rattle.sil_types.specs.Typing.Values.{type_at};
ghost use Rattle.sil_types_declarations.specs.TypeDefinitions.Declarations.{Declarations};
ghost use Rattle.sil_types_declarations.specs.TypeDefinitions.Mentions.{direct_type, target_of};
ghost use Rattle.type_check_rows.specs.inner.Views.{view_told};
ghost use Rattle.type_check_values.specs.TypingValues.inner.Told.{types_told};
ghost use Rattle.count_machine_layouts.specs.FrameLayouts.inner.Layouts as layouts;
ghost use Rattle.count_machine_layouts.specs.FrameLayouts.inner.Sized.{HasSize, HaveSizes};

use crate::frame_layouts::layout::Kept;
use crate::frame_layouts::sizes::{leaves_given, leaves_written};
use sil_ast::{FuncId, Given, Storage, TypeName};
use sil_types::shapes::target;
use sil_types::{TypeTable, only_direct_type};
use type_check_rows::TypeView;

/// How a place of this type keeps its value, where it is weak or unowned storage.
fn storage_in(ty: &TypeName) -> Option<Storage>
    ensures { (d : Declarations) → result ≡ shapes.storage_in (shape_of d ty.now) }
{
    match ty {
        TypeName::Weak(_) => Some(Storage::Weak),
        TypeName::Unowned(_) => Some(Storage::Unowned),
        TypeName::Int(_) => None,
        TypeName::Named(_) => None,
        TypeName::Optional(_) => None,
        TypeName::Tuple(_) => None,
        TypeName::Address(_) => None,
    }
}

/// Of the address of a place of this type.
fn kept_at(table: &TypeTable, ty: &TypeName) -> Kept
    requires { HasSize table.now ty.now }
    ensures { result ≡ layouts.kept_of (form_with table.now (type.Address ty.now) (typing.target (type.Address ty.now))) }
{
    Kept::Address {
        size: table.leaves(ty),
        storage: storage_in(ty),
    }
}

/// Of a value of this type.
fn kept_of_type(table: &TypeTable, ty: &TypeName) -> Kept
    requires { HasSize table.now (target_of ty.now) }
    ensures { result ≡ layouts.kept_of (form_with table.now ty.now (typing.target ty.now)) }
{
    match target(ty) {
        Some(inner) => kept_at(table, inner),
        None => Kept::Leaves(table.leaves(ty)),
    }
}

/// Of what a signature with these results gives.
fn kept_of_given(table: &TypeTable, results: &[Given]) -> Kept
    requires { HasSize table.now (target_of (direct_type results.now)) }
    ensures { result ≡ layouts.kept_of (form_with table.now (direct_type results.now) (typing.target (direct_type results.now))) }
{
    match only_direct_type(results) {
        Some(ty) => kept_of_type(table, ty),
        None => Kept::Leaves(leaves_given(table, results)),
    }
}

/// Of a value of the type that a view tells.
fn kept_of_view(table: &TypeTable, view: &TypeView<'_>) -> Kept
    requires { HasSize table.now (target_of (view_told view.now)) }
    ensures { result ≡ layouts.kept_of (form_with table.now (view_told view.now) (typing.target (view_told view.now))) }
{
    match view {
        TypeView::Written(ty) => kept_of_type(table, ty),
        TypeView::AddressOf(ty) => kept_at(table, ty),
        TypeView::WeakAddress(_) => Kept::Address {
            size: 1,
            storage: Some(Storage::Weak),
        },
        TypeView::UnownedAddress(_) => Kept::Address {
            size: 1,
            storage: Some(Storage::Unowned),
        },
        TypeView::TupleOf(operands) => Kept::Leaves(leaves_written(table, operands)),
        TypeView::GivenBy(results) => kept_of_given(table, results),
    }
}

/// Of a value without a type, by the function that it stands for.
fn kept_of_function(function: Option<FuncId>) -> Kept
    ensures { (d : Declarations) → result ≡ layouts.kept_of (form_by d None function) }
{
    match function {
        Some(function) => Kept::Function(function),
        None => Kept::Nothing,
    }
}

/// The type of the value with this number.
fn type_told<'a>(types: &[Option<TypeView<'a>>], number: usize) -> Option<TypeView<'a>>
    ensures { option_map view_told result ≡ type_at (types_told types.now) number }
{
    match types.get(number) {
        Some(found) => *found,
        None => None,
    }
}

/// Of the value with this number, by the types of all values and the function that it stands for.
pub(crate) fn kept_of(
    table: &TypeTable,
    types: &[Option<TypeView<'_>>],
    number: usize,
    function: Option<FuncId>,
) -> Kept
    requires { HaveSizes table.now (types_told types.now) }
    ensures { result ≡ layouts.kept_of (form_by table.now (type_at (types_told types.now) number) function) }
{
    match type_told(types, number) {
        Some(view) => kept_of_view(table, &view),
        None => kept_of_function(function),
    }
}
