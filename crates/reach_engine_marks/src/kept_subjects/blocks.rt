//! What the items of blocks break, from the states that walks bring there.

ghost use Rattle.std.specs.Prelude.{◌≡◌, ℕ, ◌+◌, ◌*◌, ◌<◌, ◌≤◌, ◌↔◌, ◌++◌, All, IsTrue, IfOk, OnOk, length};
ghost use Rattle.sil_cfg.specs.Flow.{block_count, numbered};
ghost use Rattle.sil_cfg.specs.Layout.{item_count};
ghost use Rattle.number_tables.specs.PathLists.inner.Lists.{list_at};
ghost use Rattle.reach_engine.specs.inner.Bits.{bit_in};
ghost use Rattle.reach_engine.specs.inner.Columns.{AllMoved, Has, cell};
ghost use Rattle.reach_engine_marks.specs.KeptSubjects.inner.Broken.{AreMarked, GoesBroken, GoesBrokenBefore};
ghost use Rattle.reach_engine_marks.specs.KeptSubjects.inner.Settled.{subject_settled};

use crate::kept_subjects::settling::Settling;
use reach_engine::{FamilyMap, MoveAll};
use sil_ast::{BlockId, Exhausted};
use sil_cfg::Graph;
use std::alloc::Global;

/// How many words have a bit for each of so many subjects.
fn words_for(count: usize) -> usize
    requires { count ≤ 1024 }
    ensures fits { count ≤ 64 * result }
    ensures few { result ≤ 16 }
    ensures least { (w : ℕ) → count ≤ 64 * w → result ≤ w }
{
    (count + 63) / 64
}

/// Whether bit k is set.
fn has_bit(words: &[u64], k: usize) -> bool
    requires { k < 64 * length words.now }
    ensures { IsTrue result ↔ (bit_in words.now k ≡ 1) }
{
    (words[k / 64] >> (k % 64)) & 1 == 1
}

/// Marks the subjects that the bundle has in state 2.
fn mark_bundle(bundle: &[u64], width: usize, first: usize, count: usize, broken: &mut [bool])
    requires width { width ≤ 16 }
    requires fits { count ≤ 64 * width }
    requires size { length bundle.now ≡ 3 * width }
    requires room { first + count ≤ length broken.old }
    ensures { AreMarked first count (Has bundle.now width 2) broken.old broken.new }
{
    for u in 0..count {
        if has_bit(bundle, 2 * (64 * width) + u) {
            broken[first + u] = true;
        }
    }
}

/// Adds words.
fn add_words(bundle: &mut Vec<u64>, words: &[u64]) -> Result<(), Exhausted>
    ensures { OnOk result (bundle.new.items ≡ bundle.old.items ++ words.now) }
{
    bundle.extend_from_slice(words)?;
    Ok(())
}

/// The rows of the block, cut to so many words each.
fn rows_of(
    alloc: Global,
    map: &FamilyMap,
    block: BlockId,
    width: usize,
) -> Result<Vec<u64>, Exhausted>
    requires block { block.0 < map.now.blocks }
    requires states { map.now.states ≡ 3 }
    requires width { width ≤ map.now.width }
    ensures size { IfOk result (λ v. length v.items ≡ 3 * width) }
    ensures rows { IfOk result (λ v. (s u : ℕ) → s < 3 → u < 64 * width
        → bit_in v.items (cell width s u) ≡ bit_in map.now.words (cell map.now.width (block.0 * 3 + s) u)) }
{
    let mut bundle = Vec::new(alloc);
    let off = map.row(block, 0);
    let on = map.row(block, 1);
    let broken = map.row(block, 2);
    add_words(&mut bundle, &off[..width])?;
    add_words(&mut bundle, &on[..width])?;
    add_words(&mut bundle, &broken[..width])?;
    Ok(bundle)
}

/// Moves each subject over the items, one after another.
fn pass_items(family: &Settling, width: usize, items: &[usize], bundle: &mut [u64], bad: &mut [u64])
    requires fits { family.now.count ≤ 64 * width }
    requires width { width ≤ 16 }
    requires items { All (λ i. i < length family.now.entries.now) items.now }
    requires size { length bundle.old ≡ 3 * width }
    requires bad { length bad.old ≡ width }
    ensures moved { AllMoved (λ u. subject_settled (list_at family.now.entries.now) (family.now.first + u)) 3 family.now.count width items.now
        bundle.old bundle.new bad.old bad.new }
    ensures size { length bundle.new ≡ 3 * width }
{
    for item in items {
        family.move_all(width, *item, bundle, bad);
    }
}

/// Marks the subjects that the items of the block bring to state 2.
fn mark_block(
    alloc: Global,
    family: &Settling,
    g: &Graph,
    map: &FamilyMap,
    block: BlockId,
    broken: &mut [bool],
) -> Result<(), Exhausted>
    requires block { block.0 < block_count (numbered g.now) }
    requires items { length family.now.entries.now ≡ item_count g.now }
    requires blocks { map.now.blocks ≡ block_count (numbered g.now) }
    requires states { map.now.states ≡ 3 }
    requires few { family.now.count ≤ 1024 }
    requires width { family.now.count ≤ 64 * map.now.width }
    requires room { family.now.first + family.now.count ≤ length broken.old }
    ensures { OnOk result (AreMarked family.now.first family.now.count
        (GoesBroken (numbered g.now) (λ u. subject_settled (list_at family.now.entries.now) (family.now.first + u)) map.now.width map.now.words block.0)
        broken.old broken.new) }
{
    let width = words_for(family.count);
    let mut bundle = rows_of(alloc, map, block, width)?;
    let mut bad = vec![in alloc; 0u64; width]?;
    pass_items(
        family,
        width,
        g.items_of(block),
        bundle.as_mut_slice(),
        bad.as_mut_slice(),
    );
    mark_bundle(bundle.as_slice(), width, family.first, family.count, broken);
    Ok(())
}

/// Marks the subjects that the items of some block bring to state 2.
pub(crate) fn mark_blocks(
    alloc: Global,
    family: &Settling,
    g: &Graph,
    map: &FamilyMap,
    broken: &mut [bool],
) -> Result<(), Exhausted>
    requires items { length family.now.entries.now ≡ item_count g.now }
    requires blocks { map.now.blocks ≡ block_count (numbered g.now) }
    requires states { map.now.states ≡ 3 }
    requires few { family.now.count ≤ 1024 }
    requires width { family.now.count ≤ 64 * map.now.width }
    requires room { family.now.first + family.now.count ≤ length broken.old }
    ensures { OnOk result (AreMarked family.now.first family.now.count
        (GoesBrokenBefore (numbered g.now) (λ u. subject_settled (list_at family.now.entries.now) (family.now.first + u)) map.now.width map.now.words
        (block_count (numbered g.now))) broken.old broken.new) }
{
    for b in 0..g.blocks() {
        mark_block(alloc, family, g, map, BlockId(b), broken)?;
    }
    Ok(())
}
