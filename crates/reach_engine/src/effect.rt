//! What a block makes of all subjects at once. A block that is visited often isn't passed item by item again:
//! its effect has, for each state, a row of bits for each state that the items leave subjects in, and one for those that break.

ghost use Rattle.std.specs.Prelude.{◌≡◌, ◌≢◌, ℕ, ◌+◌, ◌*◌, ◌<◌, ◌≤◌, ◌++◌, length, All, IfOk, OnOk};
ghost use Rattle.sil_cfg.specs.Layout.{item_count};
ghost use Rattle.sil_cfg.specs.Flow.{block_count, items_at, numbered};
ghost use Rattle.reach_engine.specs.inner.Bits.{bit_in};
ghost use Rattle.reach_engine.specs.inner.Columns.{AllMoved};
ghost use Rattle.reach_engine.specs.inner.Effects.{effect_rows, IsEffect, AreKnown, EffectAdded, RowAdded, BadAdded, Applied};

use crate::bits::{merge_masked, set_words};
use crate::bundle::pass_all;
use crate::family::MoveAll;
use sil_ast::{BlockId, Exhausted};
use sil_cfg::Graph;
use std::alloc::Global;

/// The most states for which effects are kept: the rows of an effect are as many as their square.
const MOST_STATES: usize = 8;

/// Adds the row's subjects to the rows that the effect takes them to.
fn add_row(effects: &[u64], from: usize, states: usize, width: usize, row: &[u64], rows: &mut [u64])
    requires width { width ≤ 16 }
    requires states { states < 256 }
    requires within { from + effect_rows states * width ≤ length effects.now }
    requires row { length row.now ≡ width }
    requires rows { length rows.old ≡ states * width }
    ensures { RowAdded width row.now effects.now from states rows.old rows.new }
{
    for state in 0..states {
        let first = from + state * width;
        merge_masked(rows, state * width, row, &effects[first..first + width]);
    }
}

/// Adds the row's subjects that the effect breaks.
fn add_bad(effects: &[u64], from: usize, states: usize, width: usize, row: &[u64], bad: &mut [u64])
    requires width { width ≤ 16 }
    requires states { states < 256 }
    requires within { from + effect_rows states * width ≤ length effects.now }
    requires row { length row.now ≡ width }
    requires bad { length bad.old ≡ width }
    ensures inside { BadAdded states width row.now effects.now from bad.old bad.new }
    ensures above { (v : ℕ) → 64 * width ≤ v → bit_in bad.new v ≡ bit_in bad.old v }
{
    let first = from + states * width;
    merge_masked(bad, 0, row, &effects[first..first + width]);
}

/// Moves a bundle as the effects of its states say.
fn apply(
    effects: &[u64],
    from: usize,
    states: usize,
    width: usize,
    bundle: &[u64],
    rows: &mut [u64],
    bad: &mut [u64],
)
    requires width { width ≤ 16 }
    requires states { states < 256 }
    requires within { from + states * (effect_rows states * width) ≤ length effects.now }
    requires bundle { length bundle.now ≡ states * width }
    requires rows { length rows.old ≡ states * width }
    requires clear { (k : ℕ) → bit_in rows.old k ≡ 0 }
    requires bad { length bad.old ≡ width }
    ensures { Applied states width effects.now from bundle.now rows.new bad.old bad.new states }
{
    for state in 0..states {
        let first = state * width;
        let row = &bundle[first..first + width];
        let place = from + state * ((states + 1) * width);
        add_row(effects, place, states, width, row, rows);
        add_bad(effects, place, states, width, row, bad);
    }
}

/// Passes the items from all subjects in one state: the bundle becomes the rows of the effect, and `bad` has those that break.
fn pass_basis<F: MoveAll>(
    family: &F,
    width: usize,
    items: &[usize],
    state: usize,
    bundle: &mut [u64],
    bad: &mut [u64],
)
    requires fits { F.subject_count family.now ≤ 64 * width }
    requires width { width ≤ 16 }
    requires items { All (λ i. i < F.item_count family.now) items.now }
    requires state { state < F.state_count family.now }
    requires size { length bundle.old ≡ F.state_count family.now * width }
    requires bundle { (k : ℕ) → bit_in bundle.old k ≡ 0 }
    requires bad_size { length bad.old ≡ width }
    requires bad { (k : ℕ) → bit_in bad.old k ≡ 0 }
    ensures { IsEffect (F.step_of family.now) (F.state_count family.now) (F.subject_count family.now) width state items.now (bundle.new ++ bad.new) 0 }
{
    let _states = family.states();
    set_words(bundle, state * width, width);
    pass_all(family, width, items, bundle, bad);
}

/// Adds what the items make of the subjects in one state.
fn add_effect<F: MoveAll>(
    alloc: Global,
    family: &F,
    width: usize,
    items: &[usize],
    state: usize,
    effects: &mut Vec<u64>,
) -> Result<(), Exhausted>
    requires fits { F.subject_count family.now ≤ 64 * width }
    requires width { width ≤ 16 }
    requires items { All (λ i. i < F.item_count family.now) items.now }
    requires state { state < F.state_count family.now }
    ensures { OnOk result (EffectAdded (F.step_of family.now) (F.state_count family.now) (F.subject_count family.now)
        width state items.now effects.old.items effects.new.items) }
{
    let row = family.states() as usize * width;
    let mut bundle = vec![in alloc; 0u64; row]?;
    let mut bad = vec![in alloc; 0u64; width]?;
    pass_basis(
        family,
        width,
        items,
        state,
        bundle.as_mut_slice(),
        bad.as_mut_slice(),
    );
    effects.extend_from_slice(bundle.as_slice())?;
    effects.extend_from_slice(bad.as_slice())?;
    Ok(())
}

/// The effects of every block, or none where there are too many states for it.
pub fn known_effects<F: MoveAll>(
    alloc: Global,
    family: &F,
    g: &Graph,
    width: usize,
) -> Result<Vec<u64>, Exhausted>
    requires items { F.item_count family.now ≡ item_count g.now }
    requires fits { F.subject_count family.now ≤ 64 * width }
    requires width { width ≤ 16 }
    ensures { IfOk result (λ v. AreKnown (numbered g.now) (F.step_of family.now) (F.state_count family.now) (F.subject_count family.now) width v.items) }
{
    let states = family.states() as usize;
    let mut effects = Vec::new(alloc);
    if states == 0 || states > MOST_STATES {
        return Ok(effects);
    }
    for number in 0..g.blocks() as usize * states {
        let items = g.items_of(BlockId((number / states) as u32));
        add_effect(alloc, family, width, items, number % states, &mut effects)?;
    }
    Ok(effects)
}

/// The bundle behind the items, each of which is passed. What `rows` holds doesn't matter: the bundle is made there.
fn pass_rows<F: MoveAll>(
    family: &F,
    width: usize,
    items: &[usize],
    bundle: &[u64],
    rows: &mut [u64],
    bad: &mut [u64],
)
    requires fits { F.subject_count family.now ≤ 64 * width }
    requires width { width ≤ 16 }
    requires items { All (λ i. i < F.item_count family.now) items.now }
    requires bundle { length bundle.now ≡ F.state_count family.now * width }
    requires rows { length rows.old ≡ F.state_count family.now * width }
    requires bad { length bad.old ≡ width }
    ensures { AllMoved (F.step_of family.now) (F.state_count family.now) (F.subject_count family.now) width items.now bundle.now rows.new bad.old bad.new }
{
    rows.copy_from_slice(bundle);
    pass_all(family, width, items, rows, bad);
}

/// The bundle behind the block's items, as the block's effects say. What `rows` holds doesn't matter: the bundle is made there.
fn apply_rows<F: MoveAll>(
    family: &F,
    g: &Graph,
    width: usize,
    block: BlockId,
    effects: &[u64],
    bundle: &[u64],
    rows: &mut [u64],
    bad: &mut [u64],
)
    requires fits { F.subject_count family.now ≤ 64 * width }
    requires width { width ≤ 16 }
    requires block { block.0 < block_count (numbered g.now) }
    requires bundle { length bundle.now ≡ F.state_count family.now * width }
    requires rows { length rows.old ≡ F.state_count family.now * width }
    requires bad { length bad.old ≡ width }
    requires some { length effects.now ≢ 0 }
    requires effects { AreKnown (numbered g.now) (F.step_of family.now) (F.state_count family.now) (F.subject_count family.now) width effects.now }
    ensures { AllMoved (F.step_of family.now) (F.state_count family.now) (F.subject_count family.now) width (items_at (numbered g.now) block.0)
        bundle.now rows.new bad.old bad.new }
{
    let states = family.states() as usize;
    let from = block.0 as usize * (states * ((states + 1) * width));
    rows.fill(0);
    apply(effects, from, states, width, bundle, rows, bad);
}

/// The bundle behind the block's items: by the block's effects where they are known, and else item by item.
/// What `rows` holds doesn't matter: the bundle is made there.
pub fn move_rows<F: MoveAll>(
    family: &F,
    g: &Graph,
    width: usize,
    block: BlockId,
    effects: &[u64],
    bundle: &[u64],
    rows: &mut [u64],
    bad: &mut [u64],
)
    requires items { F.item_count family.now ≡ item_count g.now }
    requires fits { F.subject_count family.now ≤ 64 * width }
    requires width { width ≤ 16 }
    requires block { block.0 < block_count (numbered g.now) }
    requires bundle { length bundle.now ≡ F.state_count family.now * width }
    requires rows { length rows.old ≡ F.state_count family.now * width }
    requires bad { length bad.old ≡ width }
    requires effects { AreKnown (numbered g.now) (F.step_of family.now) (F.state_count family.now) (F.subject_count family.now) width effects.now }
    ensures { AllMoved (F.step_of family.now) (F.state_count family.now) (F.subject_count family.now) width (items_at (numbered g.now) block.0)
        bundle.now rows.new bad.old bad.new }
{
    if effects.is_empty() {
        pass_rows(family, width, g.items_of(block), bundle, rows, bad);
    } else {
        apply_rows(family, g, width, block, effects, bundle, rows, bad);
    }
}
