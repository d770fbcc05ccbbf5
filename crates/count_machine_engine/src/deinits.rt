//! Objects that are being deinitialised.

ghost use Rattle.std.specs.Prelude.{◌≡◌, ℕ, ◌-◌, ◌<◌, ◌^◌, ◌∷◌, List, IfSome, slice_get, unwrap_or};
ghost use Rattle.count_machine_model.specs.MachineSteps.Steps.{calls_deinit, class_of, deinit_step, finishes, no_class, with_object};
ghost use Rattle.count_machine_model.specs.declared.machine_steps.frame.Task.{Task};
ghost use Rattle.count_machine_model.specs.declared.machine_steps.frame.Task.TheVariants.{Finishes};
ghost use Rattle.count_machine_model.specs.declared.ready_code.function.ReadyModule.{ReadyModule};
ghost use Rattle.count_machine_state.specs.Went.{HasGone};

use count_machine_model::{Frame, Local, ReadyModule, RunEnd, Task};
use count_machine_state::{Machine, Stop, fault};
use holder_model::LowFault;
use holder_model_values::Leaf;
use sil_ast::{FuncId, ObjectId, Storage};

/// A deinitialiser is called, with its object.
fn call_deinit(
    machine: &mut Machine,
    ready: &ReadyModule,
    bound: u32,
    object: ObjectId,
    function: FuncId,
) -> Result<(), Stop>
    ensures { HasGone (calls_deinit ready.now bound machine.old function object) result machine.new }
{
    machine.enter(bound)?;
    let Some(f) = ready.functions.get(function.0 as usize) else {
        return Err(fault(LowFault::Slot));
    };
    let frame = machine.add_frame(function, f)?;
    hand_object(machine, &frame, f.first_argument, object);
    Ok(())
}

fn hand_object(machine: &mut Machine, frame: &Frame, to: Option<Local>, object: ObjectId)
    ensures { (ready : ReadyModule) (bound : ℕ) → machine.new ≡ with_object ready bound machine.old frame.now to object }
{
    if let Some(to) = to {
        machine.put_leaf(frame, to, Leaf::Object(object));
    }
}

/// An object whose deinitialisers have returned dies. The references that its fields have wait to be dropped.
fn finish(machine: &mut Machine, ready: &ReadyModule, object: ObjectId) -> Result<(), Stop>
    ensures { (bound : ℕ) → HasGone (finishes ready.now bound machine.old object) result machine.new }
{
    if machine.strong(object) != 0 {
        return Err(Stop::Ends(RunEnd::Escaped));
    }
    if !machine.is_deiniting(object) {
        return Err(fault(LowFault::Slot));
    }
    let fields = fields_of(ready, machine.class_index(object));
    let begin = machine.waiting_count();
    machine.gather_strong(object, fields)?;
    machine.die(object, fields);
    machine.drop_from(begin)?;
    Ok(())
}

/// The next deinitialiser of an object is called, or the object dies.
pub(crate) fn deinit(
    machine: &mut Machine,
    ready: &ReadyModule,
    bound: u32,
    object: ObjectId,
    called: usize,
) -> Result<(), Stop>
    ensures { (rest : List Task) → machine.old.tasks ≡ Finishes object called ∷ rest →
        HasGone
        (deinit_step ready.now bound machine.old object called rest (slice_get (class_of ready.now machine.old.heap object).deinits called))
        result machine.new }
{
    let next = deinit_at(ready, machine.class_index(object), called);
    machine.pop_task();
    match next {
        Some(function) => {
            let called = called + 1;
            machine.push_task(Task::Finishes { object, called })?;
            call_deinit(machine, ready, bound, object, function)
        }
        None => finish(machine, ready, object),
    }
}

/// How the fields of a class are stored.
fn fields_of(ready: &ReadyModule, class: u32) -> &[Storage]
    ensures { result.now ≡ (unwrap_or (slice_get ready.now.classes class) no_class).fields }
{
    match ready.classes.get(class as usize) {
        Some(class) => class.fields.as_slice(),
        None => &[],
    }
}

/// The deinitialiser of a class that is called behind so many others.
fn deinit_at(ready: &ReadyModule, class: u32, called: usize) -> Option<FuncId>
    ensures deinit { result ≡ slice_get (unwrap_or (slice_get ready.now.classes class) no_class).deinits called }
    ensures few { IfSome result (λ function. called < 2 ^ 64 - 1) }
{
    let class = ready.classes.get(class as usize)?;
    class.deinits.as_slice().get(called).copied()
}
