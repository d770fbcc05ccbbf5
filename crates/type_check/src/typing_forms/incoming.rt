//! How many edges of a function go to each of its blocks.

ghost use Rattle.std.specs.Prelude.{◌≡◌, ℕ, ◌+◌, ◌<◌, ◌≤◌, ◌==◌, cond, min, length, slice_index, OnOk};
ghost use Rattle.std.specs.List.{count_by, flat_map};
ghost use Rattle.sil_types.specs.Typing.SwitchRules.{edges_of_block, is_to};
ghost use Rattle.type_check.specs.TypingForms.inner.Incoming.{AreIncoming};

use sil_ast::{Block, Edge, Exhausted, Function};

/// Makes of a list, in its memory, for each block how many edges of the function go to it: none, one, or 2 for more than one.
/// Its one error is that memory runs out.
pub fn count_incoming(counts: &mut Vec<u8>, f: &Function) -> Result<(), Exhausted>
    ensures { OnOk result (AreIncoming f.now counts.new.items) }
{
    counts.clear();
    counts.resize(f.blocks.len(), 0)?;
    count_blocks(counts.as_mut_slice(), f.blocks.as_slice());
    Ok(())
}

/// Counts the edges of these blocks too, up to 2 for each block.
fn count_blocks(counts: &mut [u8], blocks: &[Block])
    requires { (k : ℕ) → k < length counts.old → slice_index counts.old k ≤ 2 }
    ensures { (k : ℕ) → k < length counts.new →
        slice_index counts.new k ≡ min 2 (slice_index counts.old k + count_by (is_to k) (flat_map edges_of_block blocks.now)) }
{
    for block in blocks {
        count_edges(counts, block.terminator.edges.as_slice());
    }
}

/// Counts these edges too, up to 2 for each block.
fn count_edges(counts: &mut [u8], edges: &[Edge])
    requires { (k : ℕ) → k < length counts.old → slice_index counts.old k ≤ 2 }
    ensures { (k : ℕ) → k < length counts.new → slice_index counts.new k ≡ min 2 (slice_index counts.old k + count_by (is_to k) edges.now) }
{
    for edge in edges {
        count_to(counts, edge.block.0 as usize);
    }
}

/// Counts one more edge to this block, up to 2.
fn count_to(counts: &mut [u8], block: usize)
    requires { (k : ℕ) → k < length counts.old → slice_index counts.old k ≤ 2 }
    ensures { (k : ℕ) → k < length counts.new → slice_index counts.new k ≡ min 2 (slice_index counts.old k + cond (block == k) 1 0) }
{
    if block < counts.len() && counts[block] < 2 {
        counts[block] += 1;
    }
}
