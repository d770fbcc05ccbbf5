//! Decides whether a module is typed.

ghost use Rattle.std.specs.Prelude.{◌≡◌, ◌+◌, ◌<◌, ◌^◌, IfOk, IfErr, OnOk};
ghost use Rattle.numbered_form.specs.inner.Limits.{IsDeclInLimits};
ghost use Rattle.numbered_form.specs.Lists.{Each};
ghost use Rattle.numbered_form.specs.inner.NumberedForm.{IsNumbered};
ghost use Rattle.sil_types.specs.Typing.FormRules as forms;
ghost use Rattle.sil_types.specs.Typing.Typed.{Typed};
ghost use Rattle.type_check.specs.inner.Body.{HasBodyInRange};
ghost use Rattle.type_check.specs.inner.FirstFault.{fault_of, fault_of_function, fault_of_vtable};
ghost use Rattle.type_check.specs.inner.Firsts.{first_from};
ghost use Rattle.type_check.specs.Refusals.{IsRefusal};
ghost use Rattle.sil_types.specs.sil_types_declarations.TypeDefinitions.Declarations.{declarations_of};
ghost use Rattle.sil_types.specs.sil_types_declarations.TypeDefinitions.Rules.{AreDeclarationsOf};

use crate::body::Body;
use crate::fault::TypingFault;
use crate::function_facts::{FunctionFacts, find_facts};
use crate::points::first_in_body;
use crate::refusal::CheckRefusal;
use crate::rules::{rule_at_function, rule_at_vtable};
use crate::typing_forms::first_form;
use sil_ast::{Exhausted, Form, FuncId, Function, Module, Vtable};
use sil_types::TypeTable;
use std::alloc::Global;

/// Decides whether a module is typed: whether it keeps 201 to 212. The refusal is the first of all that is wrong: by function,
/// within it at the function before its points, the points in order, at one place by rule, and behind all functions 208 by vtable.
pub fn check(alloc: Global, m: &Module, table: &TypeTable) -> Result<(), CheckRefusal>
    requires numbered { IsNumbered m.now }
    requires table { AreDeclarationsOf table.now m.now }
    ensures ok { OnOk result (Typed m.now) }
    ensures err { IfErr result (IsRefusal m.now) }
{
    match first_fault(alloc, m, table)? {
        Some(fault) => Err(CheckRefusal::Rule {
            rule: fault.rule,
            function: fault.function,
            point: fault.point,
            vtable: fault.vtable,
        }),
        None => Ok(()),
    }
}

fn first_fault(
    alloc: Global,
    m: &Module,
    table: &TypeTable,
) -> Result<Option<TypingFault>, Exhausted>
    requires numbered { IsNumbered m.now }
    requires table { table.now ≡ declarations_of m.now }
    ensures { IfOk result (λ fault. fault ≡ fault_of m.now) }
{
    match first_in_functions(alloc, m, table)? {
        Some(fault) => Ok(Some(fault)),
        None => first_in_vtables(m, m.vtables.as_slice()),
    }
}

fn first_in_functions(
    alloc: Global,
    m: &Module,
    table: &TypeTable,
) -> Result<Option<TypingFault>, Exhausted>
    requires numbered { IsNumbered m.now }
    requires bodies { Each HasBodyInRange m.now.functions }
    requires table { table.now ≡ declarations_of m.now }
    ensures { IfOk result (λ fault. fault ≡ first_from (fault_of_function m.now) 0 m.now.functions) }
{
    let first = first_form(m);
    let mut facts = FunctionFacts::new(alloc);
    let mut number = 0;
    for function in m.functions.as_slice() {
        if let Some(fault) = first_in_function(&mut facts, m, table, first, number, function)? {
            return Ok(Some(fault));
        }
        number += 1;
    }
    Ok(None)
}

/// `facts` is what the facts of the function are made of.
fn first_in_function<'a>(
    facts: &mut FunctionFacts<'a>,
    m: &'a Module,
    table: &'a TypeTable,
    first: Option<Form>,
    number: u32,
    function: &'a Function,
) -> Result<Option<TypingFault>, Exhausted>
    requires table { table.now ≡ declarations_of m.now }
    requires first { first ≡ forms.first_form m.now }
    requires body { HasBodyInRange function.now }
    requires members { Each IsDeclInLimits table.now.decls }
    ensures { IfOk result (λ fault. fault ≡ fault_of_function m.now number function.now) }
{
    if let Some(rule) = rule_at_function(table, m, first, function) {
        return Ok(Some(TypingFault {
            rule,
            function: Some(FuncId(number)),
            point: None,
            vtable: None,
        }));
    }
    find_facts(facts, table, function)?;
    let body = Body {
        table,
        module: m,
        function,
        number,
        facts,
    };
    Ok(first_in_body(&body))
}

/// The number of vtables is counted as a `u32`; where there are more, memory counts as exhausted.
fn first_in_vtables(m: &Module, vtables: &[Vtable]) -> Result<Option<TypingFault>, Exhausted>
    ensures { IfOk result (λ fault. fault ≡ first_from (fault_of_vtable m.now) 0 vtables.now) }
{
    for (number, vtable) in vtables.iter().enumerate() {
        if let Some(rule) = rule_at_vtable(m, vtable) {
            let Ok(number) = u32::try_from(number) else {
                return Err(Exhausted);
            };
            return Ok(Some(TypingFault {
                rule,
                function: None,
                point: None,
                vtable: Some(number),
            }));
        }
    }
    Ok(None)
}
