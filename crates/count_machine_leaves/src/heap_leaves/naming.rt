//! Weak and unowned storage: the numbers of places that name an object.

ghost use Rattle.std.specs.Prelude.{◌≡◌, None, find, OnOk, false};
ghost use Rattle.count_heap.specs.HeapModel.HeapViews.{is_dead_in};
ghost use Rattle.count_machine_model.specs.MachineSteps.Naming.{leaf_named, leaf_unnamed, less_named, more_named};
ghost use Rattle.count_machine_model.specs.MachineSteps.Operands.{object_in_leaf};

use count_heap::Heap;
use holder_model_values::Leaf;
use sil_ast::{Exhausted, ObjectId, Storage};

/// One place more names an object that isn't dead.
fn name_more(heap: &mut Heap, storage: Storage, object: ObjectId) -> Result<(), Exhausted>
    requires { is_dead_in heap.old object ≡ false }
    ensures { OnOk result (heap.new ≡ more_named storage heap.old object) }
{
    match storage {
        Storage::Strong => Ok(()),
        Storage::Weak => {
            if heap.counts(object).weak >= 1 << 63 {
                return Err(Exhausted);
            }
            heap.add_weak(object);
            Ok(())
        }
        Storage::Unowned => {
            if heap.counts(object).unowned >= 1 << 63 {
                return Err(Exhausted);
            }
            heap.add_unowned(object);
            Ok(())
        }
    }
}

/// One place less names an object, where one is counted.
fn name_less(heap: &mut Heap, storage: Storage, object: ObjectId)
    ensures { heap.new ≡ less_named storage heap.old object }
{
    match storage {
        Storage::Strong => {}
        Storage::Weak => {
            if heap.counts(object).weak != 0 {
                heap.drop_weak(object);
            }
        }
        Storage::Unowned => {
            if heap.counts(object).unowned != 0 {
                heap.drop_unowned(object);
            }
        }
    }
}

/// A leaf of storage begins to name its object, which isn't dead.
#[inline]
pub fn name_leaf(heap: &mut Heap, storage: Storage, leaf: Leaf) -> Result<(), Exhausted>
    requires { find (is_dead_in heap.old) (object_in_leaf leaf) ≡ None }
    ensures { OnOk result (heap.new ≡ leaf_named storage leaf heap.old) }
{
    match leaf {
        Leaf::Int(_) => Ok(()),
        Leaf::Object(object) => name_more(heap, storage, object),
        Leaf::Tag(_) => Ok(()),
        Leaf::Blank => Ok(()),
    }
}

/// A leaf of storage names its object no longer.
#[inline]
pub fn unname_leaf(heap: &mut Heap, storage: Storage, leaf: Leaf)
    ensures { heap.new ≡ leaf_unnamed storage leaf heap.old }
{
    match leaf {
        Leaf::Int(_) => {}
        Leaf::Object(object) => name_less(heap, storage, object),
        Leaf::Tag(_) => {}
        Leaf::Blank => {}
    }
}
