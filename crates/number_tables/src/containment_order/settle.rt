//! Places each number behind its parts, as far as that goes.

ghost use Rattle.std.specs.Prelude.{◌≡◌, ℕ, ◌<◌, IfOk, length};
ghost use Rattle.std.specs.List.{list_all};
ghost use Rattle.number_tables.specs.ContainmentOrder.inner.Settling as settling;
ghost use Rattle.number_tables.specs.ContainmentOrder.inner.Settling.{IsStuck, Places, Settles, Sweeps};

use sil_ast::{Exhausted, List};

fn is_marked(marks: &[bool], value: usize) -> bool
    ensures { result ≡ settling.is_marked marks.now value }
{
    value < marks.len() && marks[value]
}

fn are_marked(marks: &[bool], parts: &[usize]) -> bool
    ensures { result ≡ list_all (settling.is_marked marks.now) parts.now }
{
    for part in parts {
        if !is_marked(marks, *part) {
            return false;
        }
    }
    true
}

/// Places the number, if it isn't placed and all of its parts are.
fn place(
    graph: &[List<usize>],
    marks: &mut [bool],
    order: &mut Vec<usize>,
    value: usize,
) -> Result<bool, Exhausted>
    requires value { value < length graph.now }
    requires settles { Settles graph.now marks.old order.old.items }
    ensures settles { IfOk result (λ _. Settles graph.now marks.new order.new.items) }
    ensures places { IfOk result (λ moved. Places graph.now marks.old marks.new value moved) }
{
    if marks[value] || !are_marked(marks, graph[value].as_slice()) {
        return Ok(false);
    }
    marks[value] = true;
    order.push(value)?;
    Ok(true)
}

/// Goes over all numbers once, and tells whether one was placed.
fn sweep(
    graph: &[List<usize>],
    marks: &mut [bool],
    order: &mut Vec<usize>,
) -> Result<bool, Exhausted>
    requires { Settles graph.now marks.old order.old.items }
    ensures settles { IfOk result (λ _. Settles graph.now marks.new order.new.items) }
    ensures sweeps { IfOk result (λ moved. Sweeps graph.now marks.old marks.new (length graph.now) moved) }
{
    let mut moved = false;
    for value in 0..graph.len() {
        if place(graph, marks, order, value)? {
            moved = true;
        }
    }
    Ok(moved)
}

/// Looks at the numbers in the order of the advice.
fn settle_along(
    graph: &[List<usize>],
    marks: &mut [bool],
    order: &mut Vec<usize>,
    advice: &[usize],
) -> Result<(), Exhausted>
    requires { Settles graph.now marks.old order.old.items }
    ensures { IfOk result (λ _. Settles graph.now marks.new order.new.items) }
{
    for value in advice {
        if *value < graph.len() {
            place(graph, marks, order, *value)?;
        }
    }
    Ok(())
}

/// Places all numbers that can be placed. With good advice it takes two looks at each.
pub(crate) fn settle(
    graph: &[List<usize>],
    marks: &mut [bool],
    order: &mut Vec<usize>,
    advice: &[usize],
) -> Result<(), Exhausted>
    requires { Settles graph.now marks.old order.old.items }
    ensures settles { IfOk result (λ _. Settles graph.now marks.new order.new.items) }
    ensures stuck { IfOk result (λ _. (v : ℕ) → v < length graph.now → IsStuck graph.now marks.new v) }
{
    settle_along(graph, marks, order, advice)?;
    let mut moved = true;
    while moved {
        moved = sweep(graph, marks, order)?;
    }
    Ok(())
}
