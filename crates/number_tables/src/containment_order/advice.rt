//! A good order to look at the numbers in, and good ranks. Nothing rests on either but the time that is taken.

use sil_ast::{Exhausted, List};
use std::alloc::Global;

/// How many turns a walk from each number along all parts takes at most.
fn turns(graph: &[List<usize>]) -> usize {
    let mut count: usize = 0;
    for parts in graph {
        count = count.saturating_add(parts.len()).saturating_add(2);
    }
    count
}

/// What is left to do of a number: to go on to its parts, or, with these behind it, to place it.
#[derive(Clone, Copy)]
enum Visit {
    Enter(usize),
    Leave(usize),
}

/// Puts a number's parts on the stack when it is met first.
fn enter(
    graph: &[List<usize>],
    stack: &mut Vec<Visit>,
    met: &mut [bool],
    value: usize,
) -> Result<(), Exhausted> {
    if value < met.len() && value < graph.len() && !met[value] {
        met[value] = true;
        stack.push(Visit::Leave(value))?;
        for part in graph[value].as_slice() {
            stack.push(Visit::Enter(*part))?;
        }
    }
    Ok(())
}

/// All numbers as a walk in depth leaves them: parts before wholes wherever no ring is in the way.
pub(crate) fn parts_first(alloc: Global, graph: &[List<usize>]) -> Result<Vec<usize>, Exhausted> {
    let mut order = Vec::new(alloc);
    let mut stack = Vec::new(alloc);
    let mut met = vec![in alloc; false; graph.len()]?;
    for root in 0..graph.len() {
        stack.push(Visit::Enter(root))?;
    }
    for _ in 0..turns(graph) {
        match stack.pop() {
            Some(Visit::Enter(value)) => enter(graph, &mut stack, met.as_mut_slice(), value)?,
            Some(Visit::Leave(value)) => order.push(value)?,
            None => return Ok(order),
        }
    }
    Ok(order)
}

fn add_whole(wholes: &mut [Vec<usize>], part: usize, whole: usize) -> Result<(), Exhausted> {
    if part < wholes.len() {
        wholes[part].push(whole)?;
    }
    Ok(())
}

/// For each number those of which it is a part.
fn wholes_of(alloc: Global, graph: &[List<usize>]) -> Result<Vec<Vec<usize>>, Exhausted> {
    let mut wholes = Vec::new(alloc);
    for _ in 0..graph.len() {
        wholes.push(Vec::new(alloc))?;
    }
    for whole in 0..graph.len() {
        for part in graph[whole].as_slice() {
            add_whole(wholes.as_mut_slice(), *part, whole)?;
        }
    }
    Ok(wholes)
}

/// Gives the rank to the number and to all that lead to it and have none yet.
fn rank_from(
    wholes: &[Vec<usize>],
    stack: &mut Vec<usize>,
    ranks: &mut [usize],
    turns: usize,
    rank: usize,
) -> Result<(), Exhausted> {
    for _ in 0..turns {
        let Some(value) = stack.pop() else {
            return Ok(());
        };
        if value < ranks.len() && value < wholes.len() && ranks[value] == 0 {
            ranks[value] = rank;
            for whole in wholes[value].as_slice() {
                stack.push(*whole)?;
            }
        }
    }
    Ok(())
}

/// Ranks that are equal along a ring and rise from whole to part elsewhere.
/// Those that lead to each other have been found once the wholes are followed from the last that `order` placed.
pub(crate) fn ranks_along(
    alloc: Global,
    graph: &[List<usize>],
    order: &[usize],
) -> Result<Vec<usize>, Exhausted> {
    let wholes = wholes_of(alloc, graph)?;
    let turns = turns(graph);
    let mut ranks = vec![in alloc; 0; graph.len()]?;
    let mut stack = Vec::new(alloc);
    let mut rank: usize = 1;
    for value in order.iter().rev() {
        stack.push(*value)?;
        rank_from(
            wholes.as_slice(),
            &mut stack,
            ranks.as_mut_slice(),
            turns,
            rank,
        )?;
        rank = rank.saturating_add(1);
    }
    Ok(ranks)
}
