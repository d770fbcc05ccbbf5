//! Which numbers chains lead to.

ghost use Rattle.std.specs.Prelude.{◌≡◌, ℕ, ◌<◌, ◌↔◌, IfOk, IsTrue, All, length, get_or, false};
ghost use Rattle.number_tables.specs.ContainmentOrder.Chains.{parts_of, IsInRange, IsCyclic};
ghost use Rattle.number_tables.specs.ContainmentOrder.inner.Search.{AreReached, Visits};

use sil_ast::{Exhausted, List};
use std::alloc::Global;

/// Marks the parts, and puts those that are new on the stack.
fn visit(stack: &mut Vec<usize>, marks: &mut [bool], parts: &[usize]) -> Result<(), Exhausted>
    requires { All (λ w. w < length marks.old) parts.now }
    ensures { IfOk result (λ _. Visits parts.now marks.old stack.old.items marks.new stack.new.items) }
{
    for part in parts {
        if !marks[*part] {
            marks[*part] = true;
            stack.push(*part)?;
        }
    }
    Ok(())
}

fn visit_parts(
    stack: &mut Vec<usize>,
    marks: &mut [bool],
    graph: &[List<usize>],
    value: usize,
) -> Result<(), Exhausted>
    requires value { value < length graph.now }
    requires range { IsInRange graph.now }
    requires size { length marks.old ≡ length graph.now }
    ensures { IfOk result (λ _. Visits (parts_of graph.now value) marks.old stack.old.items marks.new stack.new.items) }
{
    visit(stack, marks, graph[value].as_slice())?;
    Ok(())
}

/// Marks all that chains from the number lead to.
fn reach(
    alloc: Global,
    graph: &[List<usize>],
    marks: &mut [bool],
    from: usize,
) -> Result<(), Exhausted>
    requires from { from < length graph.now }
    requires range { IsInRange graph.now }
    requires size { length marks.old ≡ length graph.now }
    requires none { (v : ℕ) → get_or marks.old v false ≡ false }
    ensures { IfOk result (λ _. AreReached graph.now from marks.new) }
{
    let mut stack = Vec::new(alloc);
    visit_parts(&mut stack, marks, graph, from)?;
    while let Some(value) = stack.pop() {
        visit_parts(&mut stack, marks, graph, value)?;
    }
    Ok(())
}

fn clear(marks: &mut [bool])
    ensures { (v : ℕ) → get_or marks.new v false ≡ false }
{
    for mark in marks.iter_mut() {
        *mark = false;
    }
}

/// Whether a chain from the number returns to it, by a search over marks of the caller's.
pub(crate) fn is_cyclic(
    alloc: Global,
    graph: &[List<usize>],
    marks: &mut [bool],
    value: usize,
) -> Result<bool, Exhausted>
    requires value { value < length graph.now }
    requires range { IsInRange graph.now }
    requires size { length marks.old ≡ length graph.now }
    ensures { IfOk result (λ cyclic. IsTrue cyclic ↔ IsCyclic graph.now value) }
{
    clear(marks);
    reach(alloc, graph, marks, value)?;
    Ok(marks[value])
}
