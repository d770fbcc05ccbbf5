//! For each block the switch that goes to it, by one walk over the terminators.

ghost use Rattle.std.specs.Prelude.{◌≡◌, ◌<◌, IfOk};
ghost use Rattle.std.specs.List.{filter_map, flat_map};
ghost use Rattle.std.specs.Option.{option_to_list};
ghost use Rattle.ownership_kinds_origins.specs.Switched.{edge_to, switches_from};
ghost use Rattle.ownership_kinds_origins.specs.inner.Tables.{Adds, AreSwitches, switch_at};

use crate::switched::Switched;
use instruction_table::{Ending, ending_of};
use sil_ast::{Block, Edge, Exhausted, Function, Inst};
use std::alloc::Global;

/// Notes the switch at the block that its edge goes to, where it is the first that is met.
fn note_edge(table: &mut [Option<Switched>], switch: &Inst, edge: &Edge)
    ensures { Adds (λ n. option_to_list (edge_to n switch.now edge.now)) table.old table.new }
{
    let Some(operand) = switch.operands.get(0) else {
        return;
    };
    let block = edge.block.0 as usize;
    if block < table.len() && table[block].is_none() {
        table[block] = Some(Switched {
            operand: operand.value,
            is_default: edge.case_of.is_none(),
        });
    }
}

fn note_edges(table: &mut [Option<Switched>], switch: &Inst, edges: &[Edge])
    ensures { Adds (λ n. filter_map (edge_to n switch.now) edges.now) table.old table.new }
{
    for edge in edges {
        note_edge(table, switch, edge);
    }
}

fn note_block(table: &mut [Option<Switched>], block: &Block)
    ensures { Adds (λ n. switches_from n block.now) table.old table.new }
{
    let terminator = &block.terminator;
    match ending_of(terminator.op) {
        Ending::Cases => note_edges(table, terminator, terminator.edges.as_slice()),
        Ending::Inside => {}
        Ending::OneBranch => {}
        Ending::TwoBranches => {}
        Ending::Return => {}
        Ending::Unreachable => {}
    }
}

fn note_blocks(table: &mut [Option<Switched>], blocks: &[Block])
    ensures { Adds (λ n. flat_map (switches_from n) blocks.now) table.old table.new }
{
    for block in blocks {
        note_block(table, block);
    }
}

/// For each block of the function the switch that goes to it, by its number. Fails where memory runs out.
pub fn switches(alloc: Global, f: &Function) -> Result<Vec<Option<Switched>>, Exhausted>
    ensures { IfOk result (λ table. AreSwitches f.now table.items) }
{
    let blocks = f.blocks.as_slice();
    let mut table = vec![in alloc; None; blocks.len()]?;
    note_blocks(table.as_mut_slice(), blocks);
    Ok(table)
}

/// The switch that goes to the block with this number, as a table tells.
pub fn switch_of(table: &[Option<Switched>], block: usize) -> Option<Switched>
    ensures { result ≡ switch_at table.now block }
{
    match table.get(block) {
        Some(Some(switched)) => Some(*switched),
        _ => None,
    }
}
