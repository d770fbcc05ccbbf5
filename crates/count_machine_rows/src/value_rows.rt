//! Instructions that make values of others, and touch no place and no object.

ghost use Rattle.std.specs.Prelude.{◌≡◌, ◌∷◌, find};
ghost use Rattle.std.specs.Option.{option_to_list};
ghost use Rattle.count_machine_model.specs.MachineSteps.Operands.{is_missing};
ghost use Rattle.count_machine_model.specs.declared.ready_code.op.ReadyOp.TheVariants as op;
ghost use Rattle.count_machine_rows.specs.Performing.{Performs};

use crate::giving::{give_address, give_computed, give_copy, give_leaf, give_part};
use count_machine_leaves::compute_builtin;
use count_machine_model::{Address, Frame, Local, LocalAddress, RunEnd};
use count_machine_state::{Machine, Stop, missing};
use holder_model_values::Leaf;
use instruction_table::{Operation, Width};
use sil_ast::{BlockId, PointId, ValueId};

/// A value is looked at: it has to be there.
#[inline]
pub fn look(machine: &mut Machine, frame: &Frame, value: ValueId) -> Result<(), Stop>
    ensures { Performs machine.old frame.now (op.Look value) result machine.new }
{
    if !machine.is_there(frame, value) {
        return Err(missing(value));
    }
    machine.go_on()
}

/// The result is an integer.
#[inline]
pub fn literal(machine: &mut Machine, frame: &Frame, number: i64, to: Local) -> Result<(), Stop>
    ensures { Performs machine.old frame.now (op.Literal number to) result machine.new }
{
    give_leaf(machine, frame, to, Leaf::Int(number))
}

/// The result is a function, which has no leaves.
#[inline]
pub fn function_value(machine: &mut Machine, frame: &Frame, to: ValueId) -> Result<(), Stop>
    ensures { Performs machine.old frame.now (op.Function to) result machine.new }
{
    machine.put_there(frame, to);
    machine.go_on()
}

/// The first of an operation's operands that isn't there.
#[inline]
fn missing_among(
    machine: &Machine,
    frame: &Frame,
    left: ValueId,
    right: ValueId,
    other: Option<ValueId>,
) -> Option<ValueId>
    ensures { result ≡ find (is_missing machine.now frame.now) (left ∷ right ∷ option_to_list other) }
{
    if !machine.is_there(frame, left) {
        return Some(left);
    }
    if !machine.is_there(frame, right) {
        return Some(right);
    }
    if machine.is_there(frame, other?) {
        None
    } else {
        other
    }
}

/// The result is what a builtin operation gives.
#[inline]
pub fn compute(
    machine: &mut Machine,
    frame: &Frame,
    operation: Operation,
    width: Width,
    left: Local,
    right: Local,
    other: Option<ValueId>,
    to: Local,
) -> Result<(), Stop>
    ensures { Performs machine.old frame.now (op.Compute operation width left right other to) result machine.new }
{
    if let Some(value) = missing_among(machine, frame, left.value, right.value, other) {
        return Err(missing(value));
    }
    let given = compute_builtin(
        operation,
        width,
        machine.int(frame, left),
        machine.int(frame, right),
    );
    give_computed(machine, frame, to, given)
}

/// The run traps where a condition is set.
#[inline]
pub fn trap_where_set(machine: &mut Machine, frame: &Frame, operand: Local) -> Result<(), Stop>
    ensures { Performs machine.old frame.now (op.TrapWhereSet operand) result machine.new }
{
    if !machine.is_there(frame, operand.value) {
        return Err(missing(operand.value));
    }
    if machine.int(frame, operand) < 0 {
        return Err(Stop::Ends(RunEnd::CondFail {
            function: frame.function,
            point: PointId {
                block: BlockId(frame.block),
                index: frame.index,
            },
        }));
    }
    machine.go_on()
}

/// The result is what another value is.
#[inline]
pub fn same(machine: &mut Machine, frame: &Frame, from: Local, to: Local) -> Result<(), Stop>
    ensures { Performs machine.old frame.now (op.Same from to) result machine.new }
{
    if !machine.is_there(frame, from.value) {
        return Err(missing(from.value));
    }
    give_copy(machine, frame, from, to)
}

/// The result is a part of another value.
#[inline]
pub fn member(
    machine: &mut Machine,
    frame: &Frame,
    operand: Local,
    from: u32,
    to: Local,
) -> Result<(), Stop>
    ensures { Performs machine.old frame.now (op.Member operand from to) result machine.new }
{
    if !machine.is_there(frame, operand.value) {
        return Err(missing(operand.value));
    }
    give_part(machine, frame, operand, from, to)
}

/// The result is the address of a part of a place.
#[inline]
pub fn member_address(
    machine: &mut Machine,
    frame: &Frame,
    address: LocalAddress,
    from: u32,
    to: LocalAddress,
) -> Result<(), Stop>
    ensures { Performs machine.old frame.now (op.MemberAddress address from to) result machine.new }
{
    if !machine.is_there(frame, address.value) {
        return Err(missing(address.value));
    }
    let whole = machine.address(frame, address);
    let Some(from) = whole.from.checked_add(from) else {
        return Err(Stop::Memory);
    };
    give_address(
        machine,
        frame,
        to,
        Address {
            home: whole.home,
            from,
            is_part: true,
        },
    )
}
