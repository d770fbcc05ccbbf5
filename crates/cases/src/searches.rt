//! What the searches answer, for one switch or for three together, on a function of these blocks.

use crate::answer::Answer;
use crate::marked::{MARKS, Switch, Switches};
use crate::modules::module_of;
use reach_engine::{Found, FoundAll, search, search_all};
use sil_ast::{BlockId, EdgeId, Exhausted, Function, Module, PointId};
use sil_cfg::{Graph, has_graph};
use std::alloc::{AllocError, Global};

/// Where no walk is bad, the line `clean`, with the states in which a walk may enter each block; else the code, the point, and
/// each edge of the walk. Of three switches the states of a block are two rows of bits, and a fault begins with its subject.
pub(crate) fn answer_on_walks(
    alloc: Global,
    blocks: &[u8],
    is_together: bool,
    written: &mut Answer,
) -> Result<u8, Exhausted> {
    match module_around(alloc, blocks)? {
        Some(module) => answer_on_function(alloc, module.functions.get(0), is_together, written),
        None => Ok(written.line("not a module", 3)),
    }
}

fn answer_on_function(
    alloc: Global,
    f: Option<&Function>,
    is_together: bool,
    written: &mut Answer,
) -> Result<u8, Exhausted> {
    let Some(f) = f else {
        return Ok(written.line("no function", 3));
    };
    if !has_graph(f) {
        return Ok(written.line("no graph", 0));
    }
    let g = Graph::build(alloc, f)?;
    if is_together {
        search_together(alloc, f, &g, written)
    } else {
        search_one(alloc, f, &g, written)
    }
}

/// The module whose function has these blocks behind the marks, or nothing where the text is none.
fn module_around(alloc: Global, blocks: &[u8]) -> Result<Option<Module>, Exhausted> {
    let text = text_around(alloc, blocks)?;
    module_of(alloc, text.as_slice())
}

/// The text of a module whose function has these blocks behind the marks.
fn text_around(alloc: Global, blocks: &[u8]) -> Result<Vec<u8>, AllocError> {
    let mut text = Vec::from_slice(alloc, b"sil [ossa] @main : $@convention(thin) () -> () {\n")?;
    text.extend_from_slice(MARKS.as_bytes())?;
    text.extend_from_slice(blocks)?;
    text.extend_from_slice(b"\n}\n")?;
    Ok(text)
}

/// The search for the first switch alone.
fn search_one(
    alloc: Global,
    f: &Function,
    g: &Graph,
    written: &mut Answer,
) -> Result<u8, Exhausted> {
    let switch = Switch::of(alloc, f, g, 0)?;
    match search(alloc, g, &switch) {
        Ok(Found::Clean(map)) => {
            written.add("clean");
            for b in 0..g.blocks() {
                written.add_number(" ", u64::from(b));
                written.add(if map.may_hold(BlockId(b), 0) {
                    ":0"
                } else {
                    ":"
                });
                written.add(if map.may_hold(BlockId(b), 1) { "1" } else { "" });
            }
            Ok(written.line("", 0))
        }
        Ok(Found::Fault { walk, point, code }) => {
            written.add_number("", u64::from(code));
            Ok(add_walk(written, point, walk.as_slice()))
        }
        Err(Exhausted) => Err(Exhausted),
    }
}

/// The search for all three switches.
fn search_together(
    alloc: Global,
    f: &Function,
    g: &Graph,
    written: &mut Answer,
) -> Result<u8, Exhausted> {
    let switches = Switches::of(alloc, f, g)?;
    match search_all(alloc, g, &switches) {
        Ok(FoundAll::Clean(map)) => {
            written.add("clean");
            for b in 0..g.blocks() {
                written.add_number(" ", u64::from(b));
                written.add_number(":", map.row(BlockId(b), 0).get(0).copied().unwrap_or(99));
                written.add_number("/", map.row(BlockId(b), 1).get(0).copied().unwrap_or(99));
            }
            Ok(written.line("", 0))
        }
        Ok(
            FoundAll::Fault {
                subject,
                walk,
                point,
                code,
            },
        ) => {
            written.add_number("", subject as u64);
            written.add_number(" ", u64::from(code));
            Ok(add_walk(written, point, walk.as_slice()))
        }
        Err(Exhausted) => Err(Exhausted),
    }
}

/// Adds the point of a fault, and each edge of the walk to it.
pub(crate) fn add_walk(written: &mut Answer, point: PointId, walk: &[EdgeId]) -> u8 {
    written.add_number(" bb", u64::from(point.block.0));
    written.add_number(":", u64::from(point.index));
    for edge in walk {
        written.add_number(" ", u64::from(edge.block.0));
        written.add_number(".", u64::from(edge.index));
    }
    written.line("", 0)
}
