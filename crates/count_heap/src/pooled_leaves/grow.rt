//! More leaves, and stacks for more sizes.

ghost use Rattle.std.specs.Prelude.{◌≡◌, ◌<◌, ◌^◌, ◌++◌, IfOk, OnErr, OnOk, length, replicate};
ghost use Rattle.holder_model_values.specs.declared.run_values.leaf.Leaf.TheVariants.{Blank};
ghost use Rattle.count_heap.specs.PooledLeaves.inner.Layout.{AreFreeListed};

use crate::pooled_leaves::piece::Piece;
use holder_model_values::Leaf;
use sil_ast::Exhausted;

/// So many blank leaves more. Their place is the first.
pub(crate) fn add_leaves(leaves: &mut Vec<Leaf>, count: usize) -> Result<usize, Exhausted>
    ensures first { IfOk result (λ first. first ≡ length leaves.old.items) }
    ensures ok { OnOk result (leaves.new.items ≡ leaves.old.items ++ replicate count Blank) }
    ensures err { OnErr result (leaves.new.items ≡ leaves.old.items) }
{
    let first = leaves.len();
    if usize::MAX - first < count {
        return Err(Exhausted);
    }
    leaves.resize(first + count, Leaf::Blank)?;
    Ok(first)
}

/// A stack for this size, which may be there.
pub(crate) fn add_stack(tops: &mut Vec<u32>, pieces: &[Piece], size: usize) -> Result<(), Exhausted>
    requires room { size < 2 ^ 32 }
    requires listed { AreFreeListed pieces.now tops.old.items }
    ensures listed { AreFreeListed pieces.now tops.new.items }
    ensures ok { OnOk result (size < length tops.new.items) }
{
    if tops.len() <= size {
        tops.resize(size + 1, 0)?;
    }
    Ok(())
}
