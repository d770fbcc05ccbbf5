//! The objects that are left when a run has ended.

ghost use Rattle.std.specs.Prelude.{◌≡◌, IfOk, true};
ghost use Rattle.count_heap.specs.HeapModel.HeapViews.{is_dead_in, is_unfreed};
ghost use Rattle.count_machine_laws.specs.inner.Told.{all_left, left_of};
ghost use Rattle.count_machine_model.specs.MachineSteps.Steps.{name_of};
ghost use Rattle.count_machine.specs.LowRuns as runs;

use crate::low_run::LowEnd;
use count_heap::Heap;
use holder_model::LeftObject;
use holder_model_values::Phase;
use sil_ast::{Exhausted, List, ObjectId, Text, TryClone};
use std::alloc::Global;

/// The objects that are told after this ending: after a return all that aren't freed, in the order of their numbers.
pub(crate) fn left_after(
    alloc: Global,
    heap: &Heap,
    ending: &LowEnd,
) -> Result<List<LeftObject>, Exhausted>
    ensures { IfOk result (λ left. left ≡ runs.left_after heap.now ending.now) }
{
    match ending {
        LowEnd::Returned(_) => all_left(alloc, heap),
        LowEnd::Trap(_) | LowEnd::OutOfTurns | LowEnd::Fault(_) => Ok(List::new(alloc)),
    }
}

fn all_left(alloc: Global, heap: &Heap) -> Result<List<LeftObject>, Exhausted>
    ensures { IfOk result (λ left. left ≡ all_left heap.now) }
{
    let mut left = List::new(alloc);
    for number in 0..heap.allocated() {
        let object = ObjectId(number);
        if heap.is_unfreed(object) {
            let next = left_of(alloc, heap, object)?;
            left.push(next)?;
        }
    }
    Ok(left)
}

/// What is told of an object that isn't freed.
fn left_of(alloc: Global, heap: &Heap, object: ObjectId) -> Result<LeftObject, Exhausted>
    requires { is_unfreed heap.now object ≡ true }
    ensures { IfOk result (λ left. left ≡ left_of heap.now object) }
{
    let named = heap.counts(object);
    Ok(LeftObject {
        object,
        class_name: class_name(alloc, heap, object)?,
        live: !is_dead(heap, object),
        strong: heap.strong(object),
        unowned: named.unowned,
        weak: named.weak,
    })
}

/// The name of the class with which an object was allocated.
fn class_name(alloc: Global, heap: &Heap, object: ObjectId) -> Result<Text, Exhausted>
    requires { is_unfreed heap.now object ≡ true }
    ensures { IfOk result (λ name. name ≡ name_of heap.now object) }
{
    match heap.class_name(heap.class_of(object)) {
        Some(name) => name.try_clone(alloc),
        None => Ok(Text::new()),
    }
}

fn is_dead(heap: &Heap, object: ObjectId) -> bool
    ensures { result ≡ is_dead_in heap.now object }
{
    heap.phase(object) == Phase::Dead
}
