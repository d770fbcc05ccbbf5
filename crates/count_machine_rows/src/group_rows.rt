//! Instructions that make a value of several, or of a case.

ghost use Rattle.std.specs.Prelude.{◌≡◌, [], find, map};
ghost use Rattle.count_machine_model.specs.MachineSteps.Operands.{is_missing, put};
ghost use Rattle.count_machine_model.specs.MachineSteps.Places.{all_contents, chosen_leaves, payload_contents};
ghost use Rattle.count_machine_model.specs.MachineSteps.Rows.{value_of};
ghost use Rattle.count_machine_model.specs.declared.ready_code.op.ReadyOp.TheVariants as op;
ghost use Rattle.count_machine_rows.specs.Performing.{Performs};
ghost use Rattle.count_machine_state.specs.GoingOn.{GoesOn};

use count_machine_model::{Frame, Local};
use count_machine_state::{Machine, Stop, missing};
use sil_ast::{List, ValueId};

/// The first of some values that isn't there.
#[inline]
pub fn first_missing(machine: &Machine, frame: &Frame, values: &[ValueId]) -> Option<ValueId>
    ensures { result ≡ find (is_missing machine.now frame.now) values.now }
{
    values
        .iter()
        .copied()
        .find(|value| !machine.is_there(frame, *value))
}

/// The first of some operands that isn't there.
fn missing_operand(machine: &Machine, frame: &Frame, operands: &[Local]) -> Option<ValueId>
    ensures { result ≡ find (is_missing machine.now frame.now) (map value_of operands.now) }
{
    operands
        .iter()
        .map(|local| local.value)
        .find(|value| !machine.is_there(frame, *value))
}

/// The result has others as its members.
fn give_group(
    machine: &mut Machine,
    frame: &Frame,
    operands: &[Local],
    to: Local,
) -> Result<(), Stop>
    ensures { GoesOn machine.old frame.now (put machine.old frame.now to (all_contents machine.old frame.now [] operands.now)) result machine.new }
{
    machine.put_group(frame, operands, to)?;
    machine.go_on()
}

/// The result has no leaves.
#[inline]
pub fn give_nothing(machine: &mut Machine, frame: &Frame, to: Local) -> Result<(), Stop>
    ensures { GoesOn machine.old frame.now (put machine.old frame.now to []) result machine.new }
{
    machine.put_there(frame, to.value);
    machine.go_on()
}

/// The result has other values as its members.
#[inline]
pub fn group(
    machine: &mut Machine,
    frame: &Frame,
    operands: &List<Local>,
    to: Local,
) -> Result<(), Stop>
    ensures { Performs machine.old frame.now (op.Group operands.now to) result machine.new }
{
    let operands = operands.as_slice();
    if operands.is_empty() {
        return give_nothing(machine, frame, to);
    }
    group_of(machine, frame, operands, to)
}

/// The same, of some members.
fn group_of(machine: &mut Machine, frame: &Frame, operands: &[Local], to: Local) -> Result<(), Stop>
    ensures { Performs machine.old frame.now (op.Group operands.now to) result machine.new }
{
    if let Some(value) = missing_operand(machine, frame, operands) {
        return Err(missing(value));
    }
    give_group(machine, frame, operands, to)
}

/// The result is a case of an enum.
#[inline]
fn give_case(
    machine: &mut Machine,
    frame: &Frame,
    case_index: u32,
    payload: Option<Local>,
    to: Local,
) -> Result<(), Stop>
    ensures { let leaves = payload_contents machine.old frame.now [] payload in
        GoesOn machine.old frame.now (put machine.old frame.now to (chosen_leaves machine.old frame.now [] to.size case_index leaves)) result machine.new }
{
    machine.put_case(frame, case_index, payload, to);
    machine.go_on()
}

/// The result is a case of an enum.
#[inline]
pub fn choose(
    machine: &mut Machine,
    frame: &Frame,
    case_index: u32,
    payload: Option<Local>,
    to: Local,
) -> Result<(), Stop>
    ensures { Performs machine.old frame.now (op.Choose case_index payload to) result machine.new }
{
    if let Some(local) = payload
        && !machine.is_there(frame, local.value)
    {
        return Err(missing(local.value));
    }
    give_case(machine, frame, case_index, payload, to)
}
