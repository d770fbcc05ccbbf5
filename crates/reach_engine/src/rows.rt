//! Rows of bits for each block and state: whole rows are moved along edges until no block is dirty.
//! A block is dirty where one of its rows has gained a subject since the block was last taken.

ghost use Rattle.std.specs.Prelude.{◌≡◌, ℕ, ◌+◌, ◌*◌, ◌<◌, ◌≤◌, IfOk, OnOk, length, slice_index_or, true, false};
ghost use Rattle.sil_cfg.specs.Layout.{item_count};
ghost use Rattle.sil_cfg.specs.Flow.{block_count, edge_count, IsEdge, numbered};
ghost use Rattle.reach_engine.specs.inner.Bits.{bit_in};
ghost use Rattle.reach_engine.specs.inner.Effects.{AreKnown};
ghost use Rattle.reach_engine.specs.inner.Reached.{AreExact, AreBad, EdgeTaken, EdgesTaken, BlockTaken, MarksGains, IsSettled, DirtyTaken, Swept, IsClosed};

use crate::bits::{merge, set_bit};
use crate::effect::{known_effects, move_rows};
use crate::family::MoveAll;
use sil_ast::{BlockId, EdgeId, Exhausted};
use sil_cfg::Graph;
use std::alloc::Global;

/// As often as this each block is visited, on the whole, before the effects of the blocks are found.
const PLAIN_VISITS: usize = 4;

/// The rows that walks reach, and the subjects that some walk brings to a bad item.
#[derive(Drop)]
pub struct Reached {
    pub rows: Vec<u64>,
    pub bad: Vec<u64>,
}

/// Moves a bundle along an edge, and tells whether a row gained a subject.
fn take_edge<F: MoveAll>(
    family: &F,
    g: &Graph,
    width: usize,
    edge: EdgeId,
    bundle: &mut [u64],
    rows: &mut [u64],
    bad: &mut [u64],
) -> bool
    requires items { F.item_count family.now ≡ item_count g.now }
    requires fits { F.subject_count family.now ≤ 64 * width }
    requires width { width ≤ 16 }
    requires edge { IsEdge (numbered g.now) edge }
    requires bundle { length bundle.old ≡ F.state_count family.now * width }
    requires rows { length rows.old ≡ block_count (numbered g.now) * (F.state_count family.now * width) }
    requires bad { length bad.old ≡ width }
    ensures { EdgeTaken (numbered g.now) (F.step_of family.now) (F.state_count family.now) (F.subject_count family.now)
        width edge bundle.old rows.old rows.new bad.old bad.new result }
{
    family.move_all(width, g.edge_item(edge), bundle, bad);
    let row = family.states() as usize * width;
    let offset = g.edge_to(edge).0 as usize * row;
    merge(rows, offset, bundle)
}

/// Moves the rows of one block over its items and along its edges, marks the blocks that gain a subject, and tells whether there are any.
/// What `bundle` and `copy` hold doesn't matter: they are memory for the block's rows, and for what an edge makes of them.
fn take_block<F: MoveAll>(
    family: &F,
    g: &Graph,
    width: usize,
    block: BlockId,
    effects: &[u64],
    bundle: &mut [u64],
    copy: &mut [u64],
    rows: &mut [u64],
    bad: &mut [u64],
    dirty: &mut [bool],
) -> bool
    requires items { F.item_count family.now ≡ item_count g.now }
    requires fits { F.subject_count family.now ≤ 64 * width }
    requires width { width ≤ 16 }
    requires block { block.0 < block_count (numbered g.now) }
    requires effects { AreKnown (numbered g.now) (F.step_of family.now) (F.state_count family.now) (F.subject_count family.now) width effects.now }
    requires bundle { length bundle.old ≡ F.state_count family.now * width }
    requires copy { length copy.old ≡ F.state_count family.now * width }
    requires rows { length rows.old ≡ block_count (numbered g.now) * (F.state_count family.now * width) }
    requires bad { length bad.old ≡ width }
    requires dirty { length dirty.old ≡ block_count (numbered g.now) }
    ensures taken { BlockTaken (numbered g.now) (F.step_of family.now) (F.state_count family.now) (F.subject_count family.now)
        width block.0 rows.old rows.new bad.old bad.new result }
    ensures marks { MarksGains (F.state_count family.now) (F.subject_count family.now) width rows.old rows.new dirty.old dirty.new result }
{
    let row = family.states() as usize * width;
    let first = block.0 as usize * row;
    let old = &rows[first..first + row];
    move_rows(family, g, width, block, effects, old, bundle, bad);
    take_edges(family, g, width, block, bundle, copy, rows, bad, dirty)
}

/// Moves a bundle along each edge of the block. What `copy` holds doesn't matter.
fn take_edges<F: MoveAll>(
    family: &F,
    g: &Graph,
    width: usize,
    block: BlockId,
    bundle: &[u64],
    copy: &mut [u64],
    rows: &mut [u64],
    bad: &mut [u64],
    dirty: &mut [bool],
) -> bool
    requires items { F.item_count family.now ≡ item_count g.now }
    requires fits { F.subject_count family.now ≤ 64 * width }
    requires width { width ≤ 16 }
    requires block { block.0 < block_count (numbered g.now) }
    requires bundle { length bundle.now ≡ F.state_count family.now * width }
    requires copy { length copy.old ≡ F.state_count family.now * width }
    requires rows { length rows.old ≡ block_count (numbered g.now) * (F.state_count family.now * width) }
    requires bad { length bad.old ≡ width }
    requires dirty { length dirty.old ≡ block_count (numbered g.now) }
    ensures taken { EdgesTaken (numbered g.now) (F.step_of family.now) (F.state_count family.now) (F.subject_count family.now)
        width block.0 bundle.now rows.old rows.new bad.old bad.new (edge_count (numbered g.now) block.0) result }
    ensures marks { MarksGains (F.state_count family.now) (F.subject_count family.now) width rows.old rows.new dirty.old dirty.new result }
{
    let mut is_new = false;
    for index in 0..g.edges(block) {
        let edge = EdgeId { block, index };
        copy.copy_from_slice(bundle);
        let target = g.edge_to(edge).0 as usize;
        if take_edge(family, g, width, edge, copy, rows, bad) {
            is_new = true;
            dirty[target] = true;
        }
    }
    is_new
}

/// Takes the block if it is dirty, and tells whether it was.
fn take_dirty<F: MoveAll>(
    family: &F,
    g: &Graph,
    width: usize,
    block: BlockId,
    effects: &[u64],
    bundle: &mut [u64],
    copy: &mut [u64],
    rows: &mut [u64],
    bad: &mut [u64],
    dirty: &mut [bool],
) -> bool
    requires items { F.item_count family.now ≡ item_count g.now }
    requires fits { F.subject_count family.now ≤ 64 * width }
    requires width { width ≤ 16 }
    requires block { block.0 < block_count (numbered g.now) }
    requires effects { AreKnown (numbered g.now) (F.step_of family.now) (F.state_count family.now) (F.subject_count family.now) width effects.now }
    requires bundle { length bundle.old ≡ F.state_count family.now * width }
    requires copy { length copy.old ≡ F.state_count family.now * width }
    requires settled { IsSettled (numbered g.now) (F.step_of family.now) (F.state_count family.now) (F.subject_count family.now)
        width rows.old bad.old dirty.old }
    ensures { DirtyTaken (numbered g.now) (F.step_of family.now) (F.state_count family.now) (F.subject_count family.now)
        width block.0 rows.old rows.new bad.new dirty.old dirty.new result }
{
    let at = block.0 as usize;
    if !dirty[at] {
        return false;
    }
    dirty[at] = false;
    take_block(
        family, g, width, block, effects, bundle, copy, rows, bad, dirty,
    );
    true
}

/// Takes each dirty block once, counts these visits, and tells whether there was one.
fn sweep<F: MoveAll>(
    family: &F,
    g: &Graph,
    width: usize,
    effects: &[u64],
    bundle: &mut [u64],
    copy: &mut [u64],
    rows: &mut [u64],
    bad: &mut [u64],
    dirty: &mut [bool],
    visits: &mut usize,
) -> bool
    requires items { F.item_count family.now ≡ item_count g.now }
    requires fits { F.subject_count family.now ≤ 64 * width }
    requires width { width ≤ 16 }
    requires effects { AreKnown (numbered g.now) (F.step_of family.now) (F.state_count family.now) (F.subject_count family.now) width effects.now }
    requires bundle { length bundle.old ≡ F.state_count family.now * width }
    requires copy { length copy.old ≡ F.state_count family.now * width }
    requires settled { IsSettled (numbered g.now) (F.step_of family.now) (F.state_count family.now) (F.subject_count family.now)
        width rows.old bad.old dirty.old }
    ensures { Swept (numbered g.now) (F.step_of family.now) (F.state_count family.now) (F.subject_count family.now)
        width rows.old rows.new bad.new dirty.old dirty.new (block_count (numbered g.now)) result }
{
    let mut changed = false;
    for block in 0..g.blocks() {
        if take_dirty(
            family,
            g,
            width,
            BlockId(block),
            effects,
            bundle,
            copy,
            rows,
            bad,
            dirty,
        ) {
            changed = true;
            *visits = visits.saturating_add(1);
        }
    }
    changed
}

/// Goes on until no block is dirty, with the effects of the blocks.
fn settle_by<F: MoveAll>(
    family: &F,
    g: &Graph,
    width: usize,
    effects: &[u64],
    bundle: &mut [u64],
    copy: &mut [u64],
    rows: &mut [u64],
    bad: &mut [u64],
    dirty: &mut [bool],
)
    requires items { F.item_count family.now ≡ item_count g.now }
    requires fits { F.subject_count family.now ≤ 64 * width }
    requires width { width ≤ 16 }
    requires effects { AreKnown (numbered g.now) (F.step_of family.now) (F.state_count family.now) (F.subject_count family.now) width effects.now }
    requires bundle { length bundle.old ≡ F.state_count family.now * width }
    requires copy { length copy.old ≡ F.state_count family.now * width }
    requires settled { IsSettled (numbered g.now) (F.step_of family.now) (F.state_count family.now) (F.subject_count family.now)
        width rows.old bad.old dirty.old }
    ensures { IsClosed (numbered g.now) (F.step_of family.now) (F.state_count family.now) (F.subject_count family.now) width rows.new bad.new }
{
    let mut visits = 0;
    let mut changed = true;
    while changed {
        changed = sweep(
            family,
            g,
            width,
            effects,
            bundle,
            copy,
            rows,
            bad,
            dirty,
            &mut visits,
        );
    }
}

/// Goes on until no block is dirty. Where blocks are visited often, their effects are found, and used from then on.
fn settle<F: MoveAll>(
    alloc: Global,
    family: &F,
    g: &Graph,
    width: usize,
    bundle: &mut [u64],
    copy: &mut [u64],
    rows: &mut [u64],
    bad: &mut [u64],
    dirty: &mut [bool],
) -> Result<(), Exhausted>
    requires items { F.item_count family.now ≡ item_count g.now }
    requires fits { F.subject_count family.now ≤ 64 * width }
    requires width { width ≤ 16 }
    requires bundle { length bundle.old ≡ F.state_count family.now * width }
    requires copy { length copy.old ≡ F.state_count family.now * width }
    requires settled { IsSettled (numbered g.now) (F.step_of family.now) (F.state_count family.now) (F.subject_count family.now)
        width rows.old bad.old dirty.old }
    ensures { OnOk result (IsClosed (numbered g.now) (F.step_of family.now) (F.state_count family.now) (F.subject_count family.now) width rows.new bad.new) }
{
    let few = g.blocks() as usize * PLAIN_VISITS;
    let mut visits = 0;
    let mut changed = true;
    while changed && visits < few {
        changed = sweep(
            family,
            g,
            width,
            &[],
            bundle,
            copy,
            rows,
            bad,
            dirty,
            &mut visits,
        );
    }
    if !changed {
        return Ok(());
    }
    let effects = known_effects(alloc, family, g, width)?;
    settle_by(
        family,
        g,
        width,
        effects.as_slice(),
        bundle,
        copy,
        rows,
        bad,
        dirty,
    );
    Ok(())
}

/// Puts each subject into the first row.
fn seed(rows: &mut [u64], subjects: usize)
    requires room { subjects ≤ 64 * length rows.old }
    requires clear { (k : ℕ) → bit_in rows.old k ≡ 0 }
    ensures set { (k : ℕ) → k < subjects → bit_in rows.new k ≡ 1 }
    ensures rest { (k : ℕ) → subjects ≤ k → bit_in rows.new k ≡ 0 }
{
    for k in 0..subjects {
        set_bit(rows, k);
    }
}

/// Moves whole rows along edges until none is new, beginning at the entry.
fn fill<F: MoveAll>(
    alloc: Global,
    family: &F,
    g: &Graph,
    width: usize,
    rows: &mut [u64],
    bad: &mut [u64],
    dirty: &mut [bool],
) -> Result<(), Exhausted>
    requires items { F.item_count family.now ≡ item_count g.now }
    requires states { 0 < F.state_count family.now }
    requires fits { F.subject_count family.now ≤ 64 * width }
    requires width { width ≤ 16 }
    requires size { length rows.old ≡ block_count (numbered g.now) * (F.state_count family.now * width) }
    requires rows { (k : ℕ) → bit_in rows.old k ≡ 0 }
    requires bad_size { length bad.old ≡ width }
    requires bad { (k : ℕ) → bit_in bad.old k ≡ 0 }
    requires dirty_size { length dirty.old ≡ block_count (numbered g.now) }
    requires dirty { (b : ℕ) → b < block_count (numbered g.now) → slice_index_or dirty.old b false ≡ true }
    ensures { OnOk result (IsClosed (numbered g.now) (F.step_of family.now) (F.state_count family.now) (F.subject_count family.now) width rows.new bad.new) }
{
    let _blocks = g.blocks();
    let row = family.states() as usize * width;
    let mut bundle = vec![in alloc; 0u64; row]?;
    let mut copy = vec![in alloc; 0u64; row]?;
    seed(rows, family.subjects());
    settle(
        alloc,
        family,
        g,
        width,
        bundle.as_mut_slice(),
        copy.as_mut_slice(),
        rows,
        bad,
        dirty,
    )
}

/// The rows that walks reach, and the subjects that some walk brings to a bad item.
pub fn reach_rows<F: MoveAll>(
    alloc: Global,
    family: &F,
    g: &Graph,
    width: usize,
) -> Result<Reached, Exhausted>
    requires items { F.item_count family.now ≡ item_count g.now }
    requires states { 0 < F.state_count family.now }
    requires fits { F.subject_count family.now ≤ 64 * width }
    requires width { width ≤ 16 }
    ensures rows { IfOk result
        (λ r. AreExact (numbered g.now) (F.step_of family.now) (F.state_count family.now) (F.subject_count family.now) width r.rows.items) }
    ensures bad { IfOk result (λ r. AreBad (numbered g.now) (F.step_of family.now) (F.subject_count family.now) width r.bad.items) }
{
    let row = family.states() as usize * width;
    let mut rows = vec![in alloc; 0u64; g.blocks() as usize * row]?;
    let mut bad = vec![in alloc; 0u64; width]?;
    let mut dirty = vec![in alloc; true; g.blocks() as usize]?;
    fill(
        alloc,
        family,
        g,
        width,
        rows.as_mut_slice(),
        bad.as_mut_slice(),
        dirty.as_mut_slice(),
    )?;
    Ok(Reached { rows, bad })
}
