//! The free pieces, in a stack for each size.

ghost use Rattle.std.specs.Prelude.{◌≡◌, ◌<◌, ◌≤◌, ℕ, IfSome, IsNone, length, set, slice_index_or};
ghost use Rattle.count_heap.specs.PooledLeaves.inner.Layout.{AreFreeListed, depth_at, given_back, given_out, no_piece, size_at};
ghost use Rattle.count_heap.specs.PooledLeaves.inner.Stacks.{level};

use crate::pooled_leaves::piece::Piece;

/// Takes the top of a stack: a free piece of this size, if there is one.
pub(crate) fn pop(tops: &mut [u32], pieces: &mut [Piece], size: usize) -> Option<usize>
    requires { AreFreeListed pieces.old tops.old }
    ensures listed { AreFreeListed pieces.new tops.new }
    ensures none { IsNone result → (p : ℕ) → p < length pieces.old → size_at pieces.old p ≡ size → depth_at pieces.old p ≡ 0 }
    ensures unchanged { IsNone result → (pieces.new ≡ pieces.old) × (tops.new ≡ tops.old) }
    ensures there { IfSome result (λ p. p < length pieces.old) }
    ensures size { IfSome result (λ p. size_at pieces.old p ≡ size) }
    ensures free { IfSome result (λ p. 1 ≤ depth_at pieces.old p) }
    ensures taken { IfSome result (λ p. pieces.new ≡ set pieces.old p (given_out (slice_index_or pieces.old p no_piece))) }
{
    if size >= tops.len() {
        return None;
    }
    let top = tops[size];
    if top == 0 {
        return None;
    }
    let p = top as usize - 1;
    let piece = &mut pieces[p];
    piece.depth = 0;
    tops[size] = piece.next;
    Some(p)
}

/// How deep a stack is at a reference.
fn level_at(pieces: &[Piece], top: u32) -> u32
    requires { top ≤ length pieces.now }
    ensures { result ≡ level (depth_at pieces.now) top }
{
    if top == 0 {
        return 0;
    }
    pieces[top as usize - 1].depth
}

/// Puts a piece on the top of its stack.
pub(crate) fn push(tops: &mut [u32], pieces: &mut [Piece], p: usize)
    requires listed { AreFreeListed pieces.old tops.old }
    requires there { p < length pieces.old }
    requires taken { depth_at pieces.old p ≡ 0 }
    ensures listed { AreFreeListed pieces.new tops.new }
    ensures freed { pieces.new ≡ set pieces.old p (given_back pieces.old tops.old (slice_index_or pieces.old p no_piece)) }
{
    let size = pieces[p].size as usize;
    let below = tops[size];
    let depth = level_at(pieces, below);
    let piece = &mut pieces[p];
    piece.depth = depth + 1;
    piece.next = below;
    tops[size] = p as u32 + 1;
}
