//! Terminators.

ghost use Rattle.std.specs.Prelude.{◌≡◌, ℕ, ◌∷◌, [], List, find, map, slice_get};
ghost use Rattle.count_heap.specs.HeapModel.HeapViews.{is_dead_in};
ghost use Rattle.holder_model.specs.Builtins.{is_set};
ghost use Rattle.count_machine_model.specs.MachineSteps.Calling.{without_frame};
ghost use Rattle.count_machine_model.specs.MachineSteps.Ends.{carried_value, ends_with, leaves_run, returns, tag_in_leaf, takes_case, takes_edge};
ghost use Rattle.count_machine_model.specs.MachineSteps.Operands.{contents, first_leaf, int_among, is_missing, objects_among, gives};
ghost use Rattle.count_machine_model.specs.declared.machine_steps.frame.Task.{Task};
ghost use Rattle.count_machine_model.specs.declared.machine_steps.frame.Task.TheVariants.{Runs};
ghost use Rattle.count_machine_model.specs.declared.ready_code.function.ReadyModule.{ReadyModule};
ghost use Rattle.count_machine_state.specs.GoingOn.{GoesOver};
ghost use Rattle.count_machine_state.specs.Went.{HasGone};

use crate::lookups::awaited;
use count_machine_leaves::tag_in;
use count_machine_model::{
    Carry, Frame, Local, ReadyCase, ReadyEdge, ReadyEnd, ReadyModule, RunEnd, Task,
};
use count_machine_state::{Machine, Stop, fault};
use holder_model::LowFault;
use sil_ast::{List, ValueId};

/// The first value that is to be carried and isn't there.
fn missing_carry(machine: &Machine, frame: &Frame, values: &[Carry]) -> Option<ValueId>
    ensures { result ≡ find (is_missing machine.now frame.now) (map carried_value values.now) }
{
    for carry in values {
        if !machine.is_there(frame, carry.from.value) {
            return Some(carry.from.value);
        }
    }
    None
}

/// An edge is taken.
#[inline(always)]
fn take_edge(machine: &mut Machine, bound: u32, frame: &Frame, edge: &ReadyEdge) -> Result<(), Stop>
    ensures { (ready : ReadyModule) → GoesOver machine.old frame.now (λ rest. takes_edge ready bound machine.old frame.now rest edge.now) result machine.new }
{
    let values = edge.values.as_slice();
    if let Some(value) = missing_carry(machine, frame, values) {
        return Err(fault(LowFault::Missing { value }));
    }
    machine.turn(bound)?;
    machine.carry(frame, frame, values)?;
    machine.go_to(edge.block);
    Ok(())
}

/// The edge of a case is taken, where there is one.
fn take_case(
    machine: &mut Machine,
    bound: u32,
    frame: &Frame,
    operand: Local,
    case: Option<ReadyCase>,
) -> Result<(), Stop>
    ensures { (ready : ReadyModule) →
        GoesOver machine.old frame.now
        (λ rest. takes_case ready bound machine.old frame.now rest (contents machine.old frame.now operand) case) result machine.new }
{
    let Some(case) = case else {
        return Err(fault(LowFault::Empty));
    };
    machine.turn(bound)?;
    if let Some(to) = case.payload {
        machine.copy_part(frame, operand, 1, to);
    }
    machine.go_to(case.block);
    Ok(())
}

/// The edge of the case in which an enum is.
fn case_of(
    machine: &Machine,
    frame: &Frame,
    operand: Local,
    cases: &List<ReadyCase>,
) -> Option<ReadyCase>
    ensures { result ≡ slice_get cases.now (tag_in_leaf (first_leaf (contents machine.now frame.now operand))) }
{
    let tag = tag_in(machine.first(frame, operand));
    cases.get(tag as usize).copied()
}

/// Whether a condition is set.
fn is_set(machine: &Machine, frame: &Frame, condition: Local) -> bool
    ensures { result ≡ is_set (int_among (contents machine.now frame.now condition)) }
{
    machine.int(frame, condition) < 0
}

/// The run's first frame returns.
fn leave_run(machine: &mut Machine, frame: &Frame, operand: Local) -> Result<(), Stop>
    ensures { (ready : ReadyModule) (bound : ℕ) → machine.old.tasks ≡ Runs frame.now ∷ [] →
        HasGone
        (leaves_run ready bound machine.old frame.now [] operand (find (is_dead_in machine.old.heap) (objects_among (contents machine.old frame.now operand))))
        result machine.new }
{
    if let Some(object) = machine.first_dead(frame, operand) {
        return Err(fault(LowFault::Dead { object }));
    }
    machine.pop_task();
    Err(Stop::Ends(RunEnd::Returned { operand }))
}

/// The top frame is gone, and what it returns becomes a value of its caller.
fn give_back(
    machine: &mut Machine,
    frame: &Frame,
    operand: Local,
    caller: &Frame,
    to: Local,
) -> Result<(), Stop>
    ensures { (rest below : List Task) → machine.old.tasks ≡ Runs frame.now ∷ rest → rest ≡ Runs caller.now ∷ below →
        HasGone (gives (without_frame machine.old frame.now rest) caller.now below to (contents machine.old frame.now operand)) result machine.new }
{
    machine.hand_back(frame, operand, caller, to);
    machine.remove_frame(frame);
    machine.put_there(caller, to.value);
    machine.go_on()
}

/// The frame returns.
fn return_from(
    machine: &mut Machine,
    ready: &ReadyModule,
    frame: &Frame,
    operand: Local,
) -> Result<(), Stop>
    ensures { (bound : ℕ) → GoesOver machine.old frame.now (λ rest. returns ready.now bound machine.old frame.now rest operand) result machine.new }
{
    if machine.slot_count() != frame.slots {
        return Err(fault(LowFault::Slot));
    }
    match machine.next_task() {
        None => leave_run(machine, frame, operand),
        Some(Task::Runs { frame: caller }) => match awaited(ready, &caller) {
            Some(to) => give_back(machine, frame, operand, &caller, to),
            None => Err(fault(LowFault::Empty)),
        },
        Some(_) => {
            machine.remove_frame(frame);
            Ok(())
        }
    }
}

/// The terminator behind the instructions of a block.
pub(crate) fn end_block(
    machine: &mut Machine,
    ready: &ReadyModule,
    bound: u32,
    frame: &Frame,
    end: &ReadyEnd,
) -> Result<(), Stop>
    ensures { GoesOver machine.old frame.now (λ rest. ends_with ready.now bound machine.old frame.now rest end.now) result machine.new }
{
    match end {
        ReadyEnd::Jump { edge } => take_edge(machine, bound, frame, edge),
        ReadyEnd::Branch {
            condition,
            set,
            clear,
        } => {
            let value = condition.value;
            if !machine.is_there(frame, value) {
                return Err(fault(LowFault::Missing { value }));
            }
            if is_set(machine, frame, *condition) {
                take_edge(machine, bound, frame, set)
            } else {
                take_edge(machine, bound, frame, clear)
            }
        }
        ReadyEnd::Switch { operand, cases } => {
            let value = operand.value;
            if !machine.is_there(frame, value) {
                return Err(fault(LowFault::Missing { value }));
            }
            let case = case_of(machine, frame, *operand, cases);
            take_case(machine, bound, frame, *operand, case)
        }
        ReadyEnd::Return { operand } => {
            let value = operand.value;
            if !machine.is_there(frame, value) {
                return Err(fault(LowFault::Missing { value }));
            }
            return_from(machine, ready, frame, *operand)
        }
        ReadyEnd::Unreachable => Err(Stop::Ends(RunEnd::Unreachable)),
    }
}
