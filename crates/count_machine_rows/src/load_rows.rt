//! Reads of places.

ghost use Rattle.std.specs.Prelude.{drop, take};
ghost use Rattle.count_machine_model.specs.MachineSteps.Held.{held_by, held_in_slot};
ghost use Rattle.count_machine_model.specs.MachineSteps.Operands.{put};
ghost use Rattle.count_machine_model.specs.MachineSteps.Places.{loads};
ghost use Rattle.count_machine_model.specs.declared.machine_steps.address.Home.TheVariants as home;
ghost use Rattle.count_machine_model.specs.declared.ready_code.op.ReadyOp.TheVariants as op;
ghost use Rattle.count_machine_rows.specs.Performing.{Performs};
ghost use Rattle.count_machine_state.specs.GoingOn.{GoesOn, GoesOver};

use count_machine_model::{Address, Frame, Home, Local, LocalAddress, OpenSlot};
use count_machine_state::{Machine, Stop, fault, missing};
use holder_model::LowFault;
use sil_ast::ObjectId;

/// The result is what a slot holds.
#[inline]
fn load_slot(
    machine: &mut Machine,
    frame: &Frame,
    from: u32,
    to: Local,
    slot: Option<OpenSlot>,
) -> Result<(), Stop>
    ensures { GoesOver machine.old frame.now (λ rest. loads machine.old frame.now rest to (held_in_slot machine.old from to.size slot)) result machine.new }
{
    let Some(slot) = slot else {
        return Err(fault(LowFault::Slot));
    };
    if !slot.is_full {
        return Err(fault(LowFault::Empty));
    }
    let Some(from) = slot.from.checked_add(from as usize) else {
        return Err(Stop::Memory);
    };
    give_from_slot(machine, frame, from, to)
}

#[inline]
fn give_from_slot(machine: &mut Machine, frame: &Frame, from: usize, to: Local) -> Result<(), Stop>
    ensures { GoesOn machine.old frame.now (put machine.old frame.now to (take to.size (drop from machine.old.slot_leaves))) result machine.new }
{
    machine.put_from_slot(frame, from, to);
    machine.go_on()
}

/// The result is what a field holds.
#[inline]
fn load_field(
    machine: &mut Machine,
    frame: &Frame,
    object: ObjectId,
    field: u32,
    from: u32,
    to: Local,
) -> Result<(), Stop>
    ensures { GoesOver machine.old frame.now (λ rest. loads machine.old frame.now rest to (held_by machine.old from to.size
        (home.Field object field))) result machine.new }
{
    if machine.is_dead(object) {
        return Err(fault(LowFault::Dead { object }));
    }
    if !machine.put_from_field(frame, object, field, from, to) {
        return Err(fault(LowFault::Empty));
    }
    machine.go_on()
}

/// The result is what the place with an address holds.
#[inline]
fn load_place(machine: &mut Machine, frame: &Frame, place: Address, to: Local) -> Result<(), Stop>
    ensures { GoesOver machine.old frame.now
        (λ rest. loads machine.old frame.now rest to (held_by machine.old place.from to.size place.home)) result machine.new }
{
    match place.home {
        Home::Slot { index, serial } => {
            let slot = machine.open_slot(index, serial);
            load_slot(machine, frame, place.from, to, slot)
        }
        Home::Field { object, field } => load_field(machine, frame, object, field, place.from, to),
    }
}

/// The result is what a place holds.
#[inline]
pub fn load(
    machine: &mut Machine,
    frame: &Frame,
    address: LocalAddress,
    to: Local,
) -> Result<(), Stop>
    ensures { Performs machine.old frame.now (op.Load address to) result machine.new }
{
    if !machine.is_there(frame, address.value) {
        return Err(missing(address.value));
    }
    let place = machine.address(frame, address);
    load_place(machine, frame, place, to)
}
