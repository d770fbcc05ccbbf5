//! Leaves in lists: windows of them, and leaves that are laid over others. Each goes as far as the list does.

ghost use Rattle.std.specs.Prelude.{◌≡◌, ◌+◌, ◌-◌, ◌≤◌, ◌∷◌, ◌++◌, [], length, replicate, slice_index_or, take, drop};
ghost use Rattle.count_machine_model.specs.MachineSteps.Operands.{laid_over};
ghost use Rattle.holder_model_values.specs.declared.run_values.leaf.Leaf.TheVariants.{Blank, Tag};
ghost use Rattle.count_machine_leaves.specs.LeafWindows.inner.Grouped.{leaves_from};

use count_machine_model::Local;
use holder_model_values::Leaf;

/// The leaves from a place on, so many of them.
#[inline]
pub fn window(leaves: &[Leaf], from: usize, size: usize) -> &[Leaf]
    ensures { result.now ≡ take size (drop from leaves.now) }
{
    if from >= leaves.len() {
        return &leaves[..0];
    }
    let rest = &leaves[from..];
    if size < rest.len() {
        &rest[..size]
    } else {
        rest
    }
}

/// The leaves of a value, where those of its frame begin at a base.
#[inline]
pub fn leaves_from(leaves: &[Leaf], base: usize, local: Local) -> &[Leaf]
    ensures { result.now ≡ leaves_from base leaves.now local }
{
    window(
        leaves,
        base.saturating_add(local.at as usize),
        local.size as usize,
    )
}

/// The leaf at a place, where there is one.
#[inline]
pub fn leaf_at(leaves: &[Leaf], at: usize) -> Leaf
    ensures { result ≡ slice_index_or leaves.now at Blank }
{
    if at < leaves.len() {
        leaves[at]
    } else {
        Leaf::Blank
    }
}

/// One leaf is laid over another.
#[inline]
#[tactic(auto, using(crate::proofs::LeafWindows::LaidOver::one_laid_over))]
pub fn lay_one(leaves: &mut [Leaf], from: usize, leaf: Leaf)
    ensures { leaves.new ≡ laid_over from (leaf ∷ []) leaves.old }
{
    if from < leaves.len() {
        leaves[from] = leaf;
    }
}

/// Leaves are laid over others, from a place on.
#[inline]
pub fn lay_over(leaves: &mut [Leaf], from: usize, new: &[Leaf])
    ensures { leaves.new ≡ laid_over from new.now leaves.old }
{
    let mut at = from;
    for leaf in new {
        if at >= leaves.len() {
            return;
        }
        leaves[at] = *leaf;
        at += 1;
    }
}

/// Leaves are laid over others in front of them, from the first on.
fn move_down(leaves: &mut [Leaf], from: usize, count: usize, to: usize)
    requires below { to ≤ from }
    requires within { from + count ≤ length leaves.old }
    ensures { leaves.new ≡ laid_over to (take count (drop from leaves.old)) leaves.old }
{
    for i in 0..count {
        leaves[to + i] = leaves[from + i];
    }
}

/// Leaves are laid over others behind them, from the last on.
fn move_up(leaves: &mut [Leaf], from: usize, count: usize, to: usize)
    requires above { from ≤ to }
    requires within { to + count ≤ length leaves.old }
    ensures { leaves.new ≡ laid_over to (take count (drop from leaves.old)) leaves.old }
{
    let mut i = count;
    while i > 0 {
        i -= 1;
        leaves[to + i] = leaves[from + i];
    }
}

/// One leaf of the list is laid over another.
#[inline]
#[tactic(auto, using(crate::proofs::LeafWindows::Pieces::one_of, crate::proofs::LeafWindows::LaidOver::nothing_laid))]
fn move_one(leaves: &mut [Leaf], from: usize, to: usize)
    ensures { leaves.new ≡ laid_over to (take 1 (drop from leaves.old)) leaves.old }
{
    if from < leaves.len() {
        let leaf = leaves[from];
        lay_one(leaves, to, leaf);
    }
}

/// Leaves of the list are laid over others of it, all at once.
#[inline]
#[tactic(auto, using(crate::proofs::LeafWindows::LaidOver::nothing_laid))]
pub fn move_over(leaves: &mut [Leaf], from: usize, size: usize, to: usize)
    ensures { leaves.new ≡ laid_over to (take size (drop from leaves.old)) leaves.old }
{
    if size == 0 {
        return;
    }
    if size == 1 {
        move_one(leaves, from, to);
        return;
    }
    move_several(leaves, from, size, to);
}

/// The same, where there are several.
fn move_several(leaves: &mut [Leaf], from: usize, size: usize, to: usize)
    ensures { leaves.new ≡ laid_over to (take size (drop from leaves.old)) leaves.old }
{
    if from >= leaves.len() || to >= leaves.len() {
        return;
    }
    let count = size.min(leaves.len() - from).min(leaves.len() - to);
    if to <= from {
        move_down(leaves, from, count, to);
    } else {
        move_up(leaves, from, count, to);
    }
}

/// Blank leaves are laid over others, so many of them.
#[inline]
fn lay_blanks(leaves: &mut [Leaf], from: usize, count: usize)
    ensures { leaves.new ≡ laid_over from (replicate count Blank) leaves.old }
{
    let mut at = from;
    for _i in 0..count {
        if at >= leaves.len() {
            return;
        }
        leaves[at] = Leaf::Blank;
        at += 1;
    }
}

/// A case of an enum is laid over leaves: its tag, its payload, which are leaves of the list, and blank ones up to its size.
#[inline]
pub fn lay_case(leaves: &mut [Leaf], tag: u32, from: usize, count: usize, size: usize, to: usize)
    ensures { let payload = take count (drop from leaves.old) in
        leaves.new ≡ laid_over to (Tag tag ∷ payload ++ replicate (size - (1 + length payload)) Blank) leaves.old }
{
    if to >= leaves.len() {
        return;
    }
    let count = count.min(leaves.len().saturating_sub(from));
    move_over(leaves, from, count, to + 1);
    lay_one(leaves, to, Leaf::Tag(tag));
    lay_blanks(leaves, to + 1 + count, size.saturating_sub(1 + count));
}
