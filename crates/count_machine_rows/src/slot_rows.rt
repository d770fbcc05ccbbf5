//! How slots come and go.

ghost use Rattle.count_machine_model.specs.MachineSteps.Places.{removes_home};
ghost use Rattle.count_machine_model.specs.declared.ready_code.op.ReadyOp.TheVariants as op;
ghost use Rattle.count_machine_rows.specs.Performing.{Performs};
ghost use Rattle.count_machine_state.specs.GoingOn.{GoesOver};

use crate::giving::give_address;
use count_machine_model::{Address, Frame, Home, LocalAddress};
use count_machine_state::{Machine, Stop, fault, missing};
use holder_model::LowFault;

/// The result is the address of a new slot.
pub fn make_slot(
    machine: &mut Machine,
    frame: &Frame,
    size: u32,
    to: LocalAddress,
) -> Result<(), Stop>
    ensures { Performs machine.old frame.now (op.MakeSlot size to) result machine.new }
{
    let address = machine.add_slot(frame, size)?;
    give_address(machine, frame, to, address)
}

/// The slot at an address goes, if it is the newest of the frame.
fn remove_home(machine: &mut Machine, frame: &Frame, place: Address) -> Result<(), Stop>
    ensures { GoesOver machine.old frame.now (λ rest. removes_home machine.old frame.now rest place.is_part place.home) result machine.new }
{
    if place.is_part {
        return Err(fault(LowFault::Slot));
    }
    match place.home {
        Home::Slot { index, serial } => {
            let slot = machine.open_slot(index, serial);
            machine.remove_open_slot(frame, index, slot)
        }
        Home::Field { .. } => Err(fault(LowFault::Slot)),
    }
}

/// The newest slot of the frame goes.
pub fn remove_slot(machine: &mut Machine, frame: &Frame, address: LocalAddress) -> Result<(), Stop>
    ensures { Performs machine.old frame.now (op.RemoveSlot address) result machine.new }
{
    if !machine.is_there(frame, address.value) {
        return Err(missing(address.value));
    }
    let place = machine.address(frame, address);
    remove_home(machine, frame, place)
}
