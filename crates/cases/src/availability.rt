//! What the check that values are there before their use answers to a function. It asks for a graph, and for none of the other rules.

use crate::answer::Answer;
use crate::modules::module_of;
use crate::places::function_named;
use crate::searches::add_walk;
use sil_ast::{Exhausted, Function, Module};
use sil_cfg::{Graph, has_graph};
use sil_rules::{RuleEnd, RuleFault};
use std::alloc::Global;
use value_availability::check;

/// The line `available` with status 0, or with status 1 the rule, the value, the point and each edge of the walk.
pub(crate) fn answer_on_values(
    alloc: Global,
    name: &str,
    text: &[u8],
    written: &mut Answer,
) -> Result<u8, Exhausted> {
    match module_of(alloc, text)? {
        Some(m) => answer_on_named(alloc, name, &m, written),
        None => Ok(written.line("not a module", 1)),
    }
}

fn answer_on_named(
    alloc: Global,
    name: &str,
    m: &Module,
    written: &mut Answer,
) -> Result<u8, Exhausted> {
    let Some(function) = function_named(m, name) else {
        return Ok(written.line("no such function", 1));
    };
    match m.functions.get(function.0 as usize) {
        Some(f) => answer_on_function(alloc, f, written),
        None => Ok(written.line("no such function", 1)),
    }
}

fn answer_on_function(alloc: Global, f: &Function, written: &mut Answer) -> Result<u8, Exhausted> {
    if !has_graph(f) {
        return Ok(written.line("no graph", 1));
    }
    let g = Graph::build(alloc, f)?;
    match check(alloc, f, &g) {
        Ok(()) => Ok(written.line("available", 0)),
        Err(RuleEnd::Memory) => Err(Exhausted),
        Err(RuleEnd::Fault(fault)) => Ok(add_fault(&fault, written)),
    }
}

fn add_fault(fault: &RuleFault, written: &mut Answer) -> u8 {
    written.add_number("", u64::from(fault.rule.number()));
    written.add_number(" %", u64::from(fault.subject.0));
    let _found = add_walk(written, fault.point, fault.walk.as_slice());
    1
}
