//! Whether the values of operands have the types that are written at them, or that the row asks for.

ghost use Rattle.std.specs.Prelude.{◌≡◌, ◌&&◌, [], ◌∷◌, drop, is_some, option_map, take};
ghost use Rattle.std.specs.List.{flat_map, list_all};
ghost use Rattle.std.specs.Option.{option_copied, option_to_list};
ghost use Rattle.argument_conventions.specs.Arguments.{argument_type, as_told};
ghost use Rattle.type_check_rows.specs.inner.Views.{view_told};
ghost use Rattle.sil_ast.specs.declared.type_name.TypeName.TheVariants as type;
ghost use Rattle.sil_types.specs.Typing.Builtins.{bit};
ghost use Rattle.sil_types.specs.Typing.OperandTypes as spec;
ghost use Rattle.sil_types.specs.Typing.OperandTypes.{argument_types};
ghost use Rattle.sil_types.specs.Typing.Same.{all_pairs};
ghost use Rattle.sil_types.specs.Typing.Values as values;
ghost use Rattle.sil_types.specs.sil_types_declarations.TypeDefinitions.Declarations.{Declarations};
ghost use Rattle.type_check_values.specs.TypingValues.inner.Given.{given_count};
ghost use Rattle.type_check_values.specs.TypingValues.inner.Told.{types_told};

use crate::typing_values::views::{is_address_view, is_bit_view};
use argument_conventions::{ArgumentConvention, FunctionArgument, all_arguments};
use instruction_table::{BareOperands, bare_operands_of};
use sil_ast::{Edge, Inst, Operand, Signature, TypeName};
use sil_types::shapes::{object_at, unowned_at, weak_at};
use sil_types::written;
use type_check_rows::TypeView;

/// The type of an operand's value.
fn type_of_value<'a>(types: &[Option<TypeView<'a>>], operand: &Operand) -> Option<TypeView<'a>>
    ensures { option_map view_told result ≡ values.type_of_value (types_told types.now) operand.now }
{
    match types.get(operand.value.0 as usize) {
        Some(found) => *found,
        None => None,
    }
}

fn has_type(types: &[Option<TypeView<'_>>], operand: &Operand, ty: &TypeName) -> bool
    ensures { result ≡ spec.has_type (types_told types.now) operand.now ty.now }
{
    match type_of_value(types, operand) {
        Some(view) => view.is(ty),
        None => false,
    }
}

fn is_as_written(types: &[Option<TypeView<'_>>], operand: &Operand) -> bool
    ensures { result ≡ spec.is_as_written (types_told types.now) operand.now }
{
    match &operand.ty {
        Some(ty) => has_type(types, operand, ty),
        None => true,
    }
}

fn are_as_written(types: &[Option<TypeView<'_>>], operands: &[Operand]) -> bool
    ensures { result ≡ spec.are_as_written (types_told types.now) operands.now }
{
    for operand in operands {
        if !is_as_written(types, operand) {
            return false;
        }
    }
    true
}

fn edges_are_as_written(types: &[Option<TypeView<'_>>], edges: &[Edge]) -> bool
    ensures { result ≡ list_all (spec.edge_is_as_written (types_told types.now)) edges.now }
{
    for edge in edges {
        if !are_as_written(types, edge.args.as_slice()) {
            return false;
        }
    }
    true
}

/// Whether the first operand's value has this type, or there is neither.
fn first_has_type(
    types: &[Option<TypeView<'_>>],
    operands: &[Operand],
    ty: Option<&TypeName>,
) -> bool
    ensures { result ≡ all_pairs (spec.has_type (types_told types.now)) (take 1 operands.now) (option_to_list (option_copied ty.entry)) }
{
    match (operands.first(), ty) {
        (Some(operand), Some(ty)) => has_type(types, operand, ty),
        (None, None) => true,
        _ => false,
    }
}

/// Whether the first operand's value is a `Builtin.Int1`.
fn first_is_bit(types: &[Option<TypeView<'_>>], operands: &[Operand]) -> bool
    ensures { result ≡ all_pairs (spec.has_type (types_told types.now)) (take 1 operands.now) (bit ∷ []) }
{
    match operands.first() {
        Some(operand) => match type_of_value(types, operand) {
            Some(view) => is_bit_view(&view),
            None => false,
        },
        None => false,
    }
}

fn has_address_type(types: &[Option<TypeView<'_>>], operand: &Operand, target: &TypeName) -> bool
    ensures { result ≡ spec.has_type (types_told types.now) operand.now (type.Address target.now) }
{
    match type_of_value(types, operand) {
        Some(view) => is_address_view(target, &view),
        None => false,
    }
}

/// Whether the operand's value has the type of what is handed over for the argument.
fn has_argument_type(
    types: &[Option<TypeView<'_>>],
    operand: &Operand,
    argument: FunctionArgument<'_>,
) -> bool
    ensures { result ≡ spec.has_type (types_told types.now) operand.now (argument_type (as_told argument.entry)) }
{
    match argument.convention {
        ArgumentConvention::Plain => has_type(types, operand, argument.ty),
        ArgumentConvention::Owned => has_type(types, operand, argument.ty),
        ArgumentConvention::Guaranteed => has_type(types, operand, argument.ty),
        ArgumentConvention::Address(_) => has_address_type(types, operand, argument.ty),
    }
}

/// Whether these operands have the types of the arguments, one for each: of the `@out` results, and then of the parameters.
fn are_arguments(
    types: &[Option<TypeView<'_>>],
    operands: &[Operand],
    signature: &Signature,
) -> bool
    ensures { result ≡ all_pairs (spec.has_type (types_told types.now)) operands.now (argument_types signature.now) }
{
    let mut rest = all_arguments(signature);
    for operand in operands {
        let Some(next) = rest.next() else {
            return false;
        };
        if !has_argument_type(types, operand, next.argument) {
            return false;
        }
        rest = next.rest;
    }
    rest.next().is_none()
}

fn are_as_called(types: &[Option<TypeView<'_>>], inst: &Inst) -> bool
    ensures { result ≡ all_pairs (spec.has_type (types_told types.now)) (drop 1 inst.now.operands)
        (flat_map argument_types (option_to_list inst.now.signature)) }
{
    let handed_over = inst.operands.as_slice().get(1..).unwrap_or(&[]);
    match &inst.signature {
        Some(signature) => are_arguments(types, handed_over, signature.get()),
        None => handed_over.is_empty(),
    }
}

/// Whether the operands without a written type have the types that the row asks for.
fn are_as_asked(types: &[Option<TypeView<'_>>], inst: &Inst) -> bool
    ensures { result ≡ spec.are_as_asked (types_told types.now) inst.now }
{
    let operands = inst.operands.as_slice();
    match bare_operands_of(inst.op) {
        BareOperands::NoBare => true,
        BareOperands::StoredValue => {
            first_has_type(
                types,
                operands,
                written(inst, 1).and_then(|ty| object_at(ty)),
            )
        }
        BareOperands::WeakValue => {
            first_has_type(types, operands, written(inst, 1).and_then(|ty| weak_at(ty)))
        }
        BareOperands::UnownedValue => {
            first_has_type(
                types,
                operands,
                written(inst, 1).and_then(|ty| unowned_at(ty)),
            )
        }
        BareOperands::Condition => first_is_bit(types, operands),
        BareOperands::Arguments => are_as_called(types, inst),
    }
}

/// Whether the row is kept, and each operand's value has the type that is written or asked.
fn has_operand_types(kept: bool, types: &[Option<TypeView<'_>>], inst: &Inst) -> bool
    ensures { result ≡ (kept
        && spec.are_as_written (types_told types.now) inst.now.operands
        && list_all (spec.edge_is_as_written (types_told types.now)) inst.now.edges
        && spec.are_as_asked (types_told types.now) inst.now) }
{
    kept && are_as_written(types, inst.operands.as_slice())
        && edges_are_as_written(types, inst.edges.as_slice())
        && are_as_asked(types, inst)
}

fn is_kept(given: Option<usize>) -> bool
    ensures { result ≡ is_some given }
{
    given.is_some()
}

/// Whether the instruction breaks 201: an operand's written type differs from its value's, or what the row asks of types isn't
/// kept. `given` is how many results its row gives, and `types` are those of the function's values.
pub fn has_wrong_operand_type(
    given: Option<usize>,
    types: &[Option<TypeView<'_>>],
    inst: &Inst,
) -> bool
    ensures { (d : Declarations) → given ≡ given_count d inst.now → result ≡ spec.has_wrong_operand_type d (types_told types.now) inst.now }
{
    !has_operand_types(is_kept(given), types, inst)
}
