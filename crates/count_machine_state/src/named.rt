//! What values name: their objects, and the leaf that storage keeps of them.

ghost use Rattle.std.specs.Prelude.{◌≡◌, slice_get, find};
ghost use Rattle.count_heap.specs.HeapModel.HeapViews.{is_dead_in};
ghost use Rattle.count_machine_model.specs.MachineSteps.Naming.{name_of};
ghost use Rattle.count_machine_model.specs.MachineSteps.Operands.{contents, objects_among};

use crate::machine::Machine;
use count_machine_leaves::{leaves_from, name_among, object_among, window};
use count_machine_model::{Frame, Local};
use holder_model_values::Leaf;
use sil_ast::{ObjectId, Storage};

impl Machine {
    /// The first object of a value.
    #[inline]
    pub fn first_object(&self, frame: &Frame, operand: Local) -> Option<ObjectId>
        ensures { result ≡ slice_get (objects_among (contents self.now frame.now operand)) 0 }
    {
        object_among(leaves_from(&self.leaves, frame.leaves, operand))
    }

    /// The first dead object among the leaves of a value.
    #[inline]
    pub fn first_dead(&self, frame: &Frame, operand: Local) -> Option<ObjectId>
        ensures { result ≡ find (is_dead_in self.now.heap) (objects_among (contents self.now frame.now operand)) }
    {
        let at = frame.leaves.saturating_add(operand.at as usize);
        for leaf in window(&self.leaves, at, operand.size as usize) {
            if let Leaf::Object(object) = leaf {
                if self.is_dead(*object) {
                    return Some(*object);
                }
            }
        }
        None
    }

    /// The leaf that storage of a kind keeps of a value.
    #[inline]
    pub fn named_by(&self, frame: &Frame, storage: Storage, from: Local) -> Leaf
        ensures { result ≡ name_of storage (contents self.now frame.now from) }
    {
        name_among(storage, leaves_from(&self.leaves, frame.leaves, from))
    }
}
