//! Writes of places.

ghost use Rattle.std.specs.Prelude.{◌≡◌, false};
ghost use Rattle.count_machine_model.specs.count_heap.HeapModel.HeapViews.{is_dead_in};
ghost use Rattle.count_machine_model.specs.MachineSteps.Held.{write_field};
ghost use Rattle.count_machine_model.specs.MachineSteps.Operands.{contents};
ghost use Rattle.count_machine_model.specs.declared.machine_steps.address.Home.TheVariants as home;
ghost use Rattle.count_machine_model.specs.declared.ready_code.op.ReadyOp.TheVariants as op;
ghost use Rattle.count_machine_rows.specs.Performing.{Performs};
ghost use Rattle.count_machine_rows.specs.inner.Storing.{placed, stores_at};
ghost use Rattle.count_machine_state.specs.GoingOn.{GoesOn, GoesOver};

use count_machine_model::{Address, Frame, Home, Local, LocalAddress};
use count_machine_state::{Machine, Stop, fault, missing};
use holder_model::LowFault;
use sil_ast::ObjectId;

/// A value is put into a slot.
#[inline]
fn store_in_slot(
    machine: &mut Machine,
    frame: &Frame,
    from: Local,
    at: u32,
    is_part: bool,
    index: u32,
    serial: u64,
) -> Result<(), Stop>
    ensures { GoesOver machine.old frame.now (stores_at machine.old frame.now from (placed (home.Slot index serial) at is_part)) result machine.new }
{
    let Some(slot) = machine.open_slot(index, serial) else {
        return Err(fault(LowFault::Slot));
    };
    if is_part && !slot.is_full {
        return Err(fault(LowFault::Empty));
    }
    let Some(begin) = slot.from.checked_add(at as usize) else {
        return Err(Stop::Memory);
    };
    machine.put_in_slot(frame, from, begin, index, slot);
    machine.go_on()
}

/// A field becomes what a value is, or a part of it does, and the frame goes on.
#[inline]
fn write_in_field(
    machine: &mut Machine,
    frame: &Frame,
    from: Local,
    at: u32,
    is_part: bool,
    object: ObjectId,
    field: u32,
) -> Result<(), Stop>
    requires { is_dead_in machine.old.heap object ≡ false }
    ensures { let heap = write_field is_part object field at (contents machine.old frame.now from) machine.old.heap in
        GoesOn machine.old frame.now (record machine.old { heap = heap }) result machine.new }
{
    machine.put_in_field(frame, from, at, is_part, object, field);
    machine.go_on()
}

/// A value is put into a field.
#[inline]
fn store_in_field(
    machine: &mut Machine,
    frame: &Frame,
    from: Local,
    at: u32,
    is_part: bool,
    object: ObjectId,
    field: u32,
) -> Result<(), Stop>
    ensures { GoesOver machine.old frame.now (stores_at machine.old frame.now from (placed (home.Field object field) at is_part)) result machine.new }
{
    if machine.is_dead(object) {
        return Err(fault(LowFault::Dead { object }));
    }
    if is_part && !machine.has_field(object, field) {
        return Err(fault(LowFault::Empty));
    }
    write_in_field(machine, frame, from, at, is_part, object, field)
}

/// A value is put at the place with an address.
#[inline]
fn store_at(machine: &mut Machine, frame: &Frame, from: Local, place: Address) -> Result<(), Stop>
    ensures { GoesOver machine.old frame.now (stores_at machine.old frame.now from place) result machine.new }
{
    match place.home {
        Home::Slot { index, serial } => store_in_slot(
            machine,
            frame,
            from,
            place.from,
            place.is_part,
            index,
            serial,
        ),
        Home::Field { object, field } => store_in_field(
            machine,
            frame,
            from,
            place.from,
            place.is_part,
            object,
            field,
        ),
    }
}

/// A place becomes what a value is.
#[inline]
pub fn store(
    machine: &mut Machine,
    frame: &Frame,
    from: Local,
    address: LocalAddress,
) -> Result<(), Stop>
    ensures { Performs machine.old frame.now (op.Store from address) result machine.new }
{
    if !machine.is_there(frame, from.value) {
        return Err(missing(from.value));
    }
    if !machine.is_there(frame, address.value) {
        return Err(missing(address.value));
    }
    let place = machine.address(frame, address);
    store_at(machine, frame, from, place)
}
