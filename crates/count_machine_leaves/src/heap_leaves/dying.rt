//! The fields of an object that dies: the references that strong ones have, and the objects that weak and unowned ones name.

ghost use Rattle.std.specs.Prelude.{◌≡◌, ◌-◌, ◌<◌, ◌^◌, ◌++◌, IfSome, OnOk, false, option_and_then, slice_get};
ghost use Rattle.count_heap.specs.HeapModel.HeapViews.{field_in, fields_in, is_dead_in, phase_in, strong_in};
ghost use Rattle.count_machine_model.specs.MachineSteps.Steps.{field_unnamed, fields_unnamed, strong_in_field, strong_in_fields};

use crate::heap_leaves::fields::field_of;
use crate::heap_leaves::naming::unname_leaf;
use crate::leaf_windows::gather_objects;
use count_heap::Heap;
use holder_model_values::Leaf;
use sil_ast::{Exhausted, ObjectId, Storage};

/// The references that the strong fields of an object have wait behind the others.
pub fn gather_fields(
    waiting: &mut Vec<ObjectId>,
    heap: &Heap,
    object: ObjectId,
    fields: &[Storage],
) -> Result<(), Exhausted>
    requires { is_dead_in heap.now object ≡ false }
    ensures { OnOk result (waiting.new.items ≡ waiting.old.items ++ strong_in_fields fields.now (fields_in heap.now object)) }
{
    let count = heap.field_count(object) as usize;
    for (index, storage) in fields.iter().enumerate() {
        if index >= count {
            return Ok(());
        }
        gather_field(waiting, heap, object, index as u32, *storage)?;
    }
    Ok(())
}

fn gather_field(
    waiting: &mut Vec<ObjectId>,
    heap: &Heap,
    object: ObjectId,
    index: u32,
    storage: Storage,
) -> Result<(), Exhausted>
    requires { is_dead_in heap.now object ≡ false }
    ensures { OnOk result (waiting.new.items ≡ waiting.old.items ++ strong_in_field storage (field_in heap.now object index)) }
{
    if storage != Storage::Strong {
        return Ok(());
    }
    match field_of(heap, object, index) {
        Some(leaves) => gather_objects(waiting, leaves),
        None => Ok(()),
    }
}

/// What the weak and unowned fields of an object name is named no longer.
pub fn unname_fields(heap: &mut Heap, object: ObjectId, fields: &[Storage])
    requires { is_dead_in heap.old object ≡ false }
    ensures unnamed { heap.new ≡ fields_unnamed fields.now (fields_in heap.old object) heap.old }
    ensures phase { phase_in heap.new object ≡ phase_in heap.old object }
    ensures strong { strong_in heap.new object ≡ strong_in heap.old object }
{
    let count = heap.field_count(object) as usize;
    for (index, storage) in fields.iter().enumerate() {
        if index >= count {
            return;
        }
        unname_field(heap, object, index as u32, *storage);
    }
}

fn unname_field(heap: &mut Heap, object: ObjectId, index: u32, storage: Storage)
    requires { is_dead_in heap.old object ≡ false }
    ensures { heap.new ≡ field_unnamed storage (field_in heap.old object index) heap.old }
{
    let mut at = 0;
    while let Some(leaf) = field_leaf(heap, object, index, at) {
        unname_leaf(heap, storage, leaf);
        at += 1;
    }
}

fn field_leaf(heap: &Heap, object: ObjectId, index: u32, at: usize) -> Option<Leaf>
    requires { is_dead_in heap.now object ≡ false }
    ensures leaf { result ≡ option_and_then (λ leaves. slice_get leaves at) (field_in heap.now object index) }
    ensures few { IfSome result (λ leaf. at < 2 ^ 64 - 1) }
{
    let leaves = field_of(heap, object, index)?;
    leaves.get(at).copied()
}
