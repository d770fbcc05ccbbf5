//! What leaves tell: their first object, the case of an enum, and the leaf that storage keeps of a value.

ghost use Rattle.std.specs.Prelude.{◌≡◌, slice_get};
ghost use Rattle.count_machine_model.specs.MachineSteps.Ends.{tag_in_leaf};
ghost use Rattle.count_machine_model.specs.MachineSteps.Naming.{name_of};
ghost use Rattle.count_machine_model.specs.MachineSteps.Operands.{objects_among};

use crate::leaf_windows::leaf_lists::leaf_at;
use holder_model_values::Leaf;
use sil_ast::{ObjectId, Storage};

/// The first object among leaves.
#[inline]
pub fn object_among(leaves: &[Leaf]) -> Option<ObjectId>
    ensures { result ≡ slice_get (objects_among leaves.now) 0 }
{
    for leaf in leaves {
        if let Leaf::Object(object) = leaf {
            return Some(*object);
        }
    }
    None
}

/// The case that a leaf tells.
#[inline]
pub fn tag_in(leaf: Leaf) -> u32
    ensures { result ≡ tag_in_leaf leaf }
{
    match leaf {
        Leaf::Tag(tag) => tag,
        _ => 0,
    }
}

/// The leaf that storage of a kind keeps of the leaves of a value.
#[inline]
pub fn name_among(storage: Storage, leaves: &[Leaf]) -> Leaf
    ensures { result ≡ name_of storage leaves.now }
{
    match storage {
        Storage::Strong => Leaf::Blank,
        Storage::Weak => leaf_at(leaves, 1),
        Storage::Unowned => leaf_at(leaves, 0),
    }
}
