//! What rules read of an instruction and of a function: the type written at an operand, whether there is a body, and what results
//! together are.

ghost use Rattle.std.specs.Prelude.{◌≡◌, IfNone, IfSome};
ghost use Rattle.std.specs.Option.{option_copied};
ghost use Rattle.sil_ast.specs.declared.type_name.TypeName.TheVariants as type;
ghost use Rattle.sil_types_declarations.specs.TypeDefinitions.Mentions.{direct_type, direct_types};
ghost use Rattle.sil_types.specs.Typing.RowTypes as rows;
ghost use Rattle.sil_types.specs.Typing.SignatureRules as signatures;

use argument_conventions::next_direct;
use sil_ast::{Form, Given, Inst, TypeName};

/// The type written at the operand with this index.
pub fn written(inst: &Inst, index: usize) -> Option<&TypeName>
    ensures { option_copied result ≡ rows.written index inst.now }
{
    match inst.operands.get(index) {
        Some(operand) => operand.ty.as_ref(),
        None => None,
    }
}

/// Whether a function of this form has no body.
pub fn is_external(form: Form) -> bool
    ensures { result ≡ signatures.is_external form }
{
    match form {
        Form::External => true,
        Form::Ossa | Form::Lowered => false,
    }
}

/// The type of the one direct result. Where there is none or several, they are together a tuple.
pub fn only_direct_type(results: &[Given]) -> Option<&TypeName>
    ensures one { IfSome result (λ ty. direct_type results.now ≡ ty.now) }
    ensures others { IfNone result (direct_type results.now ≡ type.Tuple (direct_types results.now)) }
{
    let Some(first) = next_direct(results) else {
        return None;
    };
    match next_direct(first.rest) {
        Some(_) => None,
        None => Some(&first.given.ty),
    }
}
