//! The first function that has a body and no `[ossa]`.

ghost use Rattle.std.specs.Prelude.{◌≡◌, ◌+◌, ◌<◌, ◌^◌, length};
ghost use Rattle.sil_rules.specs.Order.{IsFirst};
ghost use Rattle.type_check.specs.Refusals.{fault_key};
ghost use Rattle.sil_verifier.specs.inner.Lowered.{first_lowered};
ghost use Rattle.sil_verifier_accepted.specs.AcceptedModules.Refusals.{IsLowered};

use sil_ast::{Form, FuncId, Function, Module};
use sil_rules::Rule;
use type_check::TypingFault;

fn first_among(functions: &[Function]) -> Option<TypingFault>
    requires { length functions.now < 2 ^ 32 }
    ensures { result ≡ first_lowered 0 functions.now }
{
    let mut number = 0;
    for function in functions {
        if function.form == Form::Lowered {
            return Some(TypingFault {
                rule: Rule::MixedForms,
                function: Some(FuncId(number)),
                point: None,
                vtable: None,
            });
        }
        number += 1;
    }
    None
}

/// 207 at the first function that has a body and no `[ossa]`.
pub(crate) fn first_lowered(m: &Module) -> Option<TypingFault>
    requires { length m.now.functions < 2 ^ 32 }
    ensures { IsFirst fault_key (IsLowered m.now) result }
{
    first_among(m.functions.as_slice())
}
