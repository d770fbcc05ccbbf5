//! How an instruction gives its result, and its frame goes on.

ghost use Rattle.std.specs.Prelude.{◌∷◌, [], take, drop};
ghost use Rattle.count_machine_model.specs.MachineSteps.Operands.{contents, put, put_address};
ghost use Rattle.count_machine_leaves.specs.LeafWindows.inner.Computed.{leaves_of};
ghost use Rattle.count_machine_state.specs.GoingOn.{GoesOn};

use count_machine_leaves::Computed;
use count_machine_model::{Address, Frame, Local, LocalAddress};
use count_machine_state::{Machine, Stop};
use holder_model_values::Leaf;

/// The result is one leaf.
#[inline]
pub(crate) fn give_leaf(
    machine: &mut Machine,
    frame: &Frame,
    to: Local,
    leaf: Leaf,
) -> Result<(), Stop>
    ensures { GoesOn machine.old frame.now (put machine.old frame.now to (leaf ∷ [])) result machine.new }
{
    machine.put_leaf(frame, to, leaf);
    machine.go_on()
}

/// The result is what another value is.
#[inline]
pub(crate) fn give_copy(
    machine: &mut Machine,
    frame: &Frame,
    from: Local,
    to: Local,
) -> Result<(), Stop>
    ensures { GoesOn machine.old frame.now (put machine.old frame.now to (contents machine.old frame.now from)) result machine.new }
{
    machine.copy(frame, from, to);
    machine.go_on()
}

/// The result is an address.
#[inline]
pub(crate) fn give_address(
    machine: &mut Machine,
    frame: &Frame,
    to: LocalAddress,
    address: Address,
) -> Result<(), Stop>
    ensures { GoesOn machine.old frame.now (put_address machine.old frame.now to address) result machine.new }
{
    machine.put_address(frame, to, address);
    machine.go_on()
}

/// The result is what a builtin operation gave.
#[inline]
pub(crate) fn give_computed(
    machine: &mut Machine,
    frame: &Frame,
    to: Local,
    given: Computed,
) -> Result<(), Stop>
    ensures { GoesOn machine.old frame.now (put machine.old frame.now to (leaves_of given)) result machine.new }
{
    match given {
        Computed::One(number) => give_leaf(machine, frame, to, Leaf::Int(number)),
        Computed::Two(first, second) => give_two(
            machine,
            frame,
            to,
            Leaf::Int(first),
            Leaf::Int(second),
        ),
    }
}

/// The result is two leaves.
#[inline]
pub(crate) fn give_two(
    machine: &mut Machine,
    frame: &Frame,
    to: Local,
    first: Leaf,
    second: Leaf,
) -> Result<(), Stop>
    ensures { GoesOn machine.old frame.now (put machine.old frame.now to (first ∷ second ∷ [])) result machine.new }
{
    machine.put_two(frame, to, first, second);
    machine.go_on()
}

/// The result is a part of another value.
#[inline]
pub(crate) fn give_part(
    machine: &mut Machine,
    frame: &Frame,
    operand: Local,
    from: u32,
    to: Local,
) -> Result<(), Stop>
    ensures { let part = take to.size (drop from (contents machine.old frame.now operand)) in
        GoesOn machine.old frame.now (put machine.old frame.now to part) result machine.new }
{
    let Some(at) = operand.at.checked_add(from) else {
        return Err(Stop::Memory);
    };
    let part = Local {
        value: operand.value,
        at,
        size: to.size.min(operand.size.saturating_sub(from)),
    };
    give_copy(machine, frame, part, to)
}
