//! The first fault of typing: one of 201 to 212, or 207 at a function that has a body and no `[ossa]`.

ghost use Rattle.std.specs.Prelude.{◌≡◌, IfOk, IfSome};
ghost use Rattle.numbered_form.specs.inner.NumberedForm.{IsNumbered};
ghost use Rattle.sil_ast.specs.declared.module.Module.{Module};
ghost use Rattle.sil_rules.specs.Order.{IsEarlier, IsFirst};
ghost use Rattle.type_check.specs.Refusals.{IsBroken, fault_key};
ghost use Rattle.sil_types_declarations.specs.TypeDefinitions.Rules.{AreDeclarationsOf};
ghost use Rattle.sil_verifier.specs.inner.Lowered as lowering;
ghost use Rattle.sil_verifier_accepted.specs.AcceptedModules.Refusals.{IsLowered, IsWrong};

use crate::lowered::first_lowered;
use sil_ast::{Exhausted, Module};
use sil_types::TypeTable;
use std::alloc::Global;
use type_check::{CheckRefusal, TypingFault, check};

/// The first of 201 to 212 that is broken.
fn first_broken(
    alloc: Global,
    m: &Module,
    table: &TypeTable,
) -> Result<Option<TypingFault>, Exhausted>
    requires numbered { IsNumbered m.now }
    requires table { AreDeclarationsOf table.now m.now }
    ensures { IfOk result (IsFirst fault_key (IsBroken m.now)) }
{
    match check(alloc, m, table) {
        Ok(()) => Ok(None),
        Err(
            CheckRefusal::Rule {
                rule,
                function,
                point,
                vtable,
            },
        ) => Ok(Some(TypingFault {
            rule,
            function,
            point,
            vtable,
        })),
        Err(CheckRefusal::Memory) => Err(Exhausted),
    }
}

/// Whether the broken rule comes before the function without `[ossa]`, by their places and rules.
fn is_before(broken: TypingFault, lowered: TypingFault) -> bool
    ensures { result ≡ lowering.is_before broken lowered }
{
    match (broken.function, lowered.function) {
        (Some(one), Some(other)) => {
            one.0 < other.0
                || (one.0 == other.0
                    && broken.point.is_none()
                    && broken.rule.number() <= lowered.rule.number())
        }
        _ => false,
    }
}

/// The one that comes first.
fn earlier(broken: Option<TypingFault>, lowered: Option<TypingFault>) -> Option<TypingFault>
    ensures { (m : Module) → IfSome broken (IsBroken m) → IfSome lowered (IsLowered m) → IsEarlier fault_key broken lowered result }
{
    match (broken, lowered) {
        (None, other) => other,
        (Some(one), None) => Some(one),
        (Some(one), Some(other)) => {
            if is_before(one, other) {
                Some(one)
            } else {
                Some(other)
            }
        }
    }
}

/// The first fault of the module's typing, or none.
pub(crate) fn first_fault(
    alloc: Global,
    m: &Module,
    table: &TypeTable,
) -> Result<Option<TypingFault>, Exhausted>
    requires numbered { IsNumbered m.now }
    requires table { AreDeclarationsOf table.now m.now }
    ensures { IfOk result (IsFirst fault_key (IsWrong m.now)) }
{
    let broken = first_broken(alloc, m, table)?;
    Ok(earlier(broken, first_lowered(m)))
}
