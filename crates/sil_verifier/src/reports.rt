//! What a refusal says of what a check finds.

ghost use Rattle.std.specs.Prelude.{◌≡◌, ◌+◌, ◌<◌, ◌^◌, length, IfSome};
ghost use Rattle.sil_ast.specs.declared.module.Module as any;
ghost use Rattle.sil_verifier_accepted.specs.AcceptedModules.Findings as finding;
ghost use Rattle.sil_verifier_accepted.specs.AcceptedModules.Findings.{vtable_item};
ghost use Rattle.sil_verifier.specs.inner.Reports.{Reported};

use crate::refusal::Refusal;
use sil_ast::{FuncId, List, Module};
use sil_rules::{Rule, RuleFault};
use std::alloc::Global;
use type_check::TypingFault;

/// What is said of an item that breaks one of 101 to 104.
pub(crate) fn item_refusal(alloc: Global, rule: Rule, item: u32) -> Refusal
    ensures { (m : any.Module) → Reported m (finding.item rule item) result }
{
    Refusal {
        rule,
        item: Some(item),
        function: None,
        point: None,
        subject: None,
        other: None,
        walk: List::new(alloc),
    }
}

/// The number of a vtable among declarations, functions and vtables, unless it is more than one of a module can be.
fn item_of(m: &Module, vtable: u32) -> Option<u32>
    requires { length m.now.decls + length m.now.functions < 2 ^ 32 }
    ensures { IfSome result (λ item. item ≡ vtable_item m.now vtable) }
{
    let item = m.decls.len() as u64 + (m.functions.len() as u64 + u64::from(vtable));
    match u32::try_from(item) {
        Ok(item) => Some(item),
        Err(_) => None,
    }
}

/// What is said of one of 201 to 212 that is broken, unless the vtable's number is more than one of a module can be.
pub(crate) fn typing_refusal(alloc: Global, m: &Module, fault: TypingFault) -> Option<Refusal>
    requires { length m.now.decls + length m.now.functions < 2 ^ 32 }
    ensures { IfSome result (Reported m.now (finding.typing fault)) }
{
    let item = match fault.vtable {
        Some(vtable) => Some(item_of(m, vtable)?),
        None => None,
    };
    Some(Refusal {
        rule: fault.rule,
        item,
        function: fault.function,
        point: fault.point,
        subject: None,
        other: None,
        walk: List::new(alloc),
    })
}

/// What is said of a rule on values that is broken in the function.
pub(crate) fn value_refusal(function: FuncId, fault: RuleFault) -> Refusal
    ensures { (m : any.Module) → Reported m (finding.value function.0 fault) result }
{
    Refusal {
        rule: fault.rule,
        item: None,
        function: Some(function),
        point: Some(fault.point),
        subject: Some(fault.subject),
        other: fault.other,
        walk: fault.walk,
    }
}
