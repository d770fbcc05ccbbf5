//! Values that are carried from frame to frame: all are read before one is written.

ghost use Rattle.std.specs.Prelude.{◌≡◌, OnOk};
ghost use Rattle.std.specs.List.{flat_map};
ghost use Rattle.count_machine_leaves.specs.LeafWindows.inner.Carried.{all_laid, all_marked, carried_from};

use crate::leaf_windows::leaf_lists::{lay_over, window};
use count_machine_model::Carry;
use holder_model_values::Leaf;
use sil_ast::Exhausted;

/// What is carried, one after another.
pub fn gather_carried(
    moving: &mut Vec<Leaf>,
    leaves: &[Leaf],
    base: usize,
    values: &[Carry],
) -> Result<(), Exhausted>
    ensures { OnOk result (moving.new.items ≡ flat_map (carried_from base leaves.now) values.now) }
{
    moving.clear();
    for carry in values {
        let at = base.saturating_add(carry.from.at as usize);
        moving.extend_from_slice(window(leaves, at, carry.from.size as usize))?;
    }
    Ok(())
}

/// What was gathered is laid over the leaves of the frame to which it is carried.
pub fn lay_carried(leaves: &mut [Leaf], moving: &[Leaf], from: usize, to: usize, values: &[Carry])
    requires { moving.now ≡ flat_map (carried_from from leaves.old) values.now }
    ensures { leaves.new ≡ all_laid (carried_from from leaves.old) to values.now leaves.old }
{
    let mut begin = 0;
    for carry in values {
        let at = from.saturating_add(carry.from.at as usize);
        let size = window(leaves, at, carry.from.size as usize).len();
        let base = to.saturating_add(carry.to.at as usize);
        lay_over(leaves, base, window(moving, begin, size));
        begin += size;
    }
}

/// Values that are carried are there.
pub fn mark_carried(there: &mut [bool], base: usize, values: &[Carry])
    ensures { there.new ≡ all_marked base values.now there.old }
{
    for carry in values {
        let at = base.saturating_add(carry.to.value.0 as usize);
        if at < there.len() {
            there[at] = true;
        }
    }
}
