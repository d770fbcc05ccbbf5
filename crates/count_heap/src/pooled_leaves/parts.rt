//! The leaves of a piece.

ghost use Rattle.std.specs.Prelude.{◌≡◌, ◌<◌, ◌≤◌, ◌+◌, length, replicate, slice_index_or};
ghost use Rattle.holder_model_values.specs.declared.run_values.leaf.Leaf.TheVariants.{Blank};
ghost use Rattle.count_heap.specs.PooledLeaves.Pieces.{put_leaves};
ghost use Rattle.count_heap.specs.PooledLeaves.inner.Layout.{first_at, leaves_of, no_piece, size_at};

use crate::pooled_leaves::piece::Piece;
use holder_model_values::Leaf;

/// The leaves of a piece.
#[inline]
pub(crate) fn part<'a>(leaves: &'a [Leaf], pieces: &[Piece], p: usize) -> &'a [Leaf]
    requires there { p < length pieces.now }
    requires within { first_at pieces.now p + size_at pieces.now p ≤ length leaves.now }
    ensures { result.now ≡ leaves_of leaves.now (slice_index_or pieces.now p no_piece) }
{
    let Piece { first, size, .. } = pieces[p];
    &leaves[first..first + size as usize]
}

/// Writes `Blank` into each leaf.
fn blank(leaves: &mut [Leaf])
    ensures { leaves.new ≡ replicate (length leaves.old) Blank }
{
    for leaf in leaves.iter_mut() {
        *leaf = Leaf::Blank;
    }
}

/// Writes `Blank` into each leaf of a piece.
#[inline]
pub(crate) fn blank_part(leaves: &mut [Leaf], pieces: &[Piece], p: usize)
    requires there { p < length pieces.now }
    requires within { first_at pieces.now p + size_at pieces.now p ≤ length leaves.old }
    ensures { leaves.new ≡ put_leaves (first_at pieces.now p) (replicate (size_at pieces.now p) Blank) leaves.old }
{
    let Piece { first, size, .. } = pieces[p];
    blank(&mut leaves[first..first + size as usize]);
}

/// Puts leaves in place of as many others. Most writes are of one leaf, and are worth no call of the library.
#[inline]
fn put(leaves: &mut [Leaf], at: usize, new: &[Leaf])
    requires { at + length new.now ≤ length leaves.old }
    ensures { leaves.new ≡ put_leaves at new.now leaves.old }
{
    match new {
        [one] => leaves[at] = *one,
        many => leaves[at..at + many.len()].copy_from_slice(many),
    }
}

/// Puts leaves into a piece, from a place on.
#[inline]
pub(crate) fn put_part(leaves: &mut [Leaf], pieces: &[Piece], p: usize, from: usize, new: &[Leaf])
    requires there { p < length pieces.now }
    requires within { from + length new.now ≤ size_at pieces.now p }
    requires inside { first_at pieces.now p + size_at pieces.now p ≤ length leaves.old }
    ensures { leaves.new ≡ put_leaves (first_at pieces.now p + from) new.now leaves.old }
{
    let first = pieces[p].first;
    put(leaves, first + from, new);
}
