//! What is called.

ghost use Rattle.std.specs.Prelude.{◌≡◌};
ghost use Rattle.sil_types.specs.Typing.SignatureRules as rules;
ghost use Rattle.sil_types.specs.Typing.Values as values;

use instruction_table::Op;
use sil_ast::{FuncId, Inst, ValueId};

/// Whether the instruction is an `apply` of what isn't the result of a `function_ref`. `functions` has the functions that the
/// values of the instruction's function stand for.
#[tactic(auto, unfolding(sil_types::specs::Typing::SignatureRules::calls_no_function))]
pub fn calls_no_function(functions: &[Option<FuncId>], inst: &Inst) -> bool
    ensures { result ≡ rules.calls_no_function functions.now inst.now }
{
    match inst.op {
        Op::Apply => callee(functions, inst).is_none(),
        _ => false,
    }
}

/// The function that the first operand stands for.
pub(crate) fn callee(functions: &[Option<FuncId>], inst: &Inst) -> Option<FuncId>
    ensures { result ≡ rules.callee functions.now inst.now }
{
    match inst.operands.get(0) {
        Some(operand) => function_at(functions, operand.value),
        None => None,
    }
}

fn function_at(functions: &[Option<FuncId>], value: ValueId) -> Option<FuncId>
    ensures { result ≡ values.function_at functions.now value.0 }
{
    match functions.get(value.0 as usize) {
        Some(function) => *function,
        None => None,
    }
}
