//! Leaves of several values, and the objects of leaves, gathered in one list.

ghost use Rattle.std.specs.Prelude.{◌≡◌, OnOk, ◌++◌, drop, take};
ghost use Rattle.std.specs.List.{flat_map};
ghost use Rattle.count_machine_model.specs.MachineSteps.Operands.{objects_among};
ghost use Rattle.count_machine_leaves.specs.LeafWindows.inner.Grouped.{leaves_from};

use crate::leaf_windows::leaf_lists::window;
use count_machine_model::Local;
use holder_model_values::Leaf;
use sil_ast::{Exhausted, ObjectId};

/// The leaves of values of a frame, one after another.
pub fn gather_group(
    moving: &mut Vec<Leaf>,
    leaves: &[Leaf],
    base: usize,
    operands: &[Local],
) -> Result<(), Exhausted>
    ensures { OnOk result (moving.new.items ≡ flat_map (leaves_from base leaves.now) operands.now) }
{
    moving.clear();
    for local in operands {
        let at = base.saturating_add(local.at as usize);
        gather_leaves(moving, leaves, at, local.size as usize)?;
    }
    Ok(())
}

/// Leaves from a place on, so many of them, stand behind others. Most values have one.
#[inline(always)]
#[tactic(auto, using(crate::proofs::LeafWindows::Pieces::one_of))]
fn gather_leaves(
    moving: &mut Vec<Leaf>,
    leaves: &[Leaf],
    at: usize,
    size: usize,
) -> Result<(), Exhausted>
    ensures { OnOk result (moving.new.items ≡ moving.old.items ++ take size (drop at leaves.now)) }
{
    if size == 1 && at < leaves.len() {
        moving.push(leaves[at])?;
        return Ok(());
    }
    moving.extend_from_slice(window(leaves, at, size))?;
    Ok(())
}

/// The references that leaves have wait behind the others.
#[inline]
pub fn gather_objects(waiting: &mut Vec<ObjectId>, leaves: &[Leaf]) -> Result<(), Exhausted>
    ensures { OnOk result (waiting.new.items ≡ waiting.old.items ++ objects_among leaves.now) }
{
    for leaf in leaves {
        if let Leaf::Object(object) = leaf {
            waiting.push(*object)?;
        }
    }
    Ok(())
}
