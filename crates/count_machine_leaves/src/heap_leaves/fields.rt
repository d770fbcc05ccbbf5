//! Fields of objects, read and written as far as they are there.

ghost use Rattle.std.specs.Prelude.{◌≡◌, false};
ghost use Rattle.std.specs.Option.{option_copied};
ghost use Rattle.count_heap.specs.HeapModel.HeapViews.{field_in, is_dead_in, leaves_at};
ghost use Rattle.count_machine_model.specs.MachineSteps.Held.{has_room, has_size, without_field, write_field};

use count_heap::Heap;
use holder_model_values::{Leaf, Phase};
use sil_ast::ObjectId;

/// Whether an object is dead.
#[inline]
pub fn is_dead(heap: &Heap, object: ObjectId) -> bool
    ensures { result ≡ is_dead_in heap.now object }
{
    match heap.phase(object) {
        Phase::Live => false,
        Phase::Deiniting => false,
        Phase::Dead => true,
    }
}

/// The leaves of a field, where it is written.
#[inline]
pub fn field_of(heap: &Heap, object: ObjectId, field: u32) -> Option<&[Leaf]>
    requires { is_dead_in heap.now object ≡ false }
    ensures { option_copied result ≡ field_in heap.now object field }
{
    if field < heap.field_count(object) {
        heap.field(object, field)
    } else {
        None
    }
}

/// A field becomes these leaves, or a part of it from a place on, as far as it has them.
#[inline]
pub fn write_field(
    heap: &mut Heap,
    is_part: bool,
    object: ObjectId,
    field: u32,
    from: u32,
    leaves: &[Leaf],
)
    requires { is_dead_in heap.old object ≡ false }
    ensures { heap.new ≡ write_field is_part object field from leaves.now heap.old }
{
    if is_part {
        if has_room(heap, object, field, from, leaves.len()) {
            heap.set_part(object, field, from, leaves);
        }
    } else if has_size(heap, object, field, leaves.len()) {
        heap.set_field(object, field, leaves);
    }
}

/// Whether a field is written, and has so many leaves from a place on.
#[inline]
fn has_room(heap: &Heap, object: ObjectId, field: u32, from: u32, count: usize) -> bool
    requires { is_dead_in heap.now object ≡ false }
    ensures { result ≡ has_room from count (field_in heap.now object field) }
{
    match field_of(heap, object, field) {
        Some(old) => (from as usize) <= old.len() && count <= old.len() - from as usize,
        None => false,
    }
}

/// Whether a field has just so many leaves.
#[inline]
fn has_size(heap: &Heap, object: ObjectId, field: u32, count: usize) -> bool
    ensures { result ≡ has_size count (leaves_at heap.now object field) }
{
    match heap.field_size(object, field) {
        Some(size) => size as usize == count,
        None => false,
    }
}

/// A field is emptied, where there is one.
#[inline]
pub fn empty_field(heap: &mut Heap, object: ObjectId, field: u32)
    requires { is_dead_in heap.old object ≡ false }
    ensures { heap.new ≡ without_field heap.old object field }
{
    if field < heap.field_count(object) {
        heap.clear_field(object, field);
    }
}
