//! References that are made once more.

ghost use Rattle.std.specs.Prelude.{◌≡◌, false, OnOk};
ghost use Rattle.count_heap.specs.HeapModel.HeapCalls.{retained};
ghost use Rattle.count_heap.specs.HeapModel.HeapViews.{is_dead_in};

use count_heap::Heap;
use sil_ast::{Exhausted, ObjectId};

/// One strong reference more of an object that isn't dead.
#[inline]
pub fn retain_alive(heap: &mut Heap, object: ObjectId) -> Result<(), Exhausted>
    requires { is_dead_in heap.old object ≡ false }
    ensures { OnOk result (heap.new ≡ retained heap.old object) }
{
    if heap.strong(object) >= 1 << 63 || heap.totals().retains >= 1 << 63 {
        return Err(Exhausted);
    }
    heap.retain(object);
    Ok(())
}
