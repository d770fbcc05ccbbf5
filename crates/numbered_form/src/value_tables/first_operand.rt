//! The value of an instruction's first operand.

ghost use Rattle.std.specs.Prelude.{◌≡◌};
ghost use Rattle.numbered_form.specs.ValueTables.FirstValue as spec;

use sil_ast::{Inst, ValueId};

/// The value of an instruction's first operand, if it has operands.
pub fn first_value(inst: &Inst) -> Option<ValueId>
    ensures { result ≡ spec.first_value inst.now }
{
    match inst.operands.get(0) {
        None => None,
        Some(operand) => Some(operand.value),
    }
}
