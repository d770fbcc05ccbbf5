//! Calls of functions, with a body and without one.

ghost use Rattle.std.specs.Prelude.{◌≡◌, ◌++◌, ◌∷◌, [], map, OnOk};
ghost use Rattle.holder_model.specs.declared.event.Event.TheVariants as event;
ghost use Rattle.count_machine_model.specs.MachineSteps.Calling.{addresses_carried, carried, new_frame, with_frame};
ghost use Rattle.count_machine_model.specs.MachineSteps.Operands.{contents, int_among};
ghost use Rattle.count_machine_model.specs.MachineSteps.Rows.{calls_in};
ghost use Rattle.count_machine_model.specs.declared.ready_code.function.ReadyModule.{ReadyModule};
ghost use Rattle.count_machine_model.specs.declared.ready_code.op.ReadyOp.TheVariants as op;
ghost use Rattle.count_machine_rows.specs.Performing.{PerformsIn};
ghost use Rattle.count_machine_state.specs.Went.{HasGone};

use count_machine_model::{Carry, CarryAddress, Frame, Local, ReadyFunction, ReadyModule};
use count_machine_rows::{first_missing, give_nothing};
use count_machine_state::{Machine, Stop, fault, missing};
use holder_model::{Event, LowFault};
use sil_ast::{Exhausted, FuncId, List, ValueId};

/// A frame of a function, with its arguments.
fn add_callee(
    machine: &mut Machine,
    frame: &Frame,
    function: FuncId,
    f: &ReadyFunction,
    values: &[Carry],
    addresses: &[CarryAddress],
) -> Result<(), Exhausted>
    ensures { let callee = new_frame machine.old function in
        let filled = carried (with_frame machine.old function f.now) frame.now callee values.now in
        OnOk result (machine.new ≡ addresses_carried filled frame.now callee addresses.now) }
{
    let callee = machine.add_frame(function, f)?;
    machine.carry(frame, &callee, values)?;
    machine.carry_addresses(frame, &callee, addresses);
    Ok(())
}

/// A function is called.
fn call_in(
    machine: &mut Machine,
    ready: &ReadyModule,
    bound: u32,
    frame: &Frame,
    function: FuncId,
    values: &[Carry],
    addresses: &[CarryAddress],
) -> Result<(), Stop>
    ensures { HasGone (calls_in ready.now bound machine.old frame.now [] function values.now addresses.now) result machine.new }
{
    machine.enter(bound)?;
    match ready.functions.get(function.0 as usize) {
        Some(f) => {
            add_callee(machine, frame, function, f, values, addresses)?;
            Ok(())
        }
        None => Err(fault(LowFault::Slot)),
    }
}

/// A function with a body is called.
#[inline]
pub(crate) fn call(
    machine: &mut Machine,
    ready: &ReadyModule,
    bound: u32,
    frame: &Frame,
    function: FuncId,
    operands: &List<ValueId>,
    values: &List<Carry>,
    addresses: &List<CarryAddress>,
    to: Local,
) -> Result<(), Stop>
    ensures { PerformsIn ready.now bound machine.old frame.now (op.Call function operands.now values.now addresses.now to) result machine.new }
{
    if let Some(value) = first_missing(machine, frame, operands.as_slice()) {
        return Err(missing(value));
    }
    call_in(
        machine,
        ready,
        bound,
        frame,
        function,
        values.as_slice(),
        addresses.as_slice(),
    )
}

/// A call of a function without a body is shown.
fn show_call(
    machine: &mut Machine,
    frame: &Frame,
    function: FuncId,
    args: &[Local],
) -> Result<(), Exhausted>
    ensures { let shown = event.Call function (map (λ l. int_among (contents machine.old frame.now l)) args.now) in
        OnOk result (machine.new ≡ record machine.old { events = machine.old.events ++ shown ∷ [] }) }
{
    let args = machine.ints(frame, args)?;
    machine.show(Event::Call { function, args })
}

pub(crate) fn call_out(
    machine: &mut Machine,
    bound: u32,
    frame: &Frame,
    function: FuncId,
    operands: &List<ValueId>,
    args: &List<Local>,
    to: Local,
) -> Result<(), Stop>
    ensures { (ready : ReadyModule) → PerformsIn ready bound machine.old frame.now (op.CallOut function operands.now args.now to) result machine.new }
{
    if let Some(value) = first_missing(machine, frame, operands.as_slice()) {
        return Err(missing(value));
    }
    machine.turn(bound)?;
    show_call(machine, frame, function, args.as_slice())?;
    give_nothing(machine, frame, to)
}
