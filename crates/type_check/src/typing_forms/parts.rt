//! What several rules read: the type at the address that an operand is, and whether a form is the lowered one.

ghost use Rattle.std.specs.Prelude.{◌≡◌, option_and_then};
ghost use Rattle.std.specs.Option.{option_copied};
ghost use Rattle.sil_types.specs.Typing.FormRules as rules;
ghost use Rattle.sil_types.specs.Typing.RowTypes as row;
ghost use Rattle.sil_types.specs.Typing.Shapes as shape;

use sil_ast::{Form, Inst, TypeName};
use sil_types::shapes::target;
use sil_types::written;

/// The type at the address that the operand with this index is.
pub(crate) fn written_target(inst: &Inst, index: usize) -> Option<&TypeName>
    ensures { option_copied result ≡ option_and_then shape.target (row.written index inst.now) }
{
    match written(inst, index) {
        Some(ty) => target(ty),
        None => None,
    }
}

pub(crate) fn is_lowered(form: Form) -> bool
    ensures { result ≡ rules.is_lowered form }
{
    match form {
        Form::Lowered => true,
        Form::Ossa | Form::External => false,
    }
}
