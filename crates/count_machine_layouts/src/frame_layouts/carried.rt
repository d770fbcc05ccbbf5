//! What is carried along an edge, or to a function that is called.

ghost use Rattle.std.specs.Prelude.{◌≡◌, IfOk, map, slice_get};
ghost use Rattle.std.specs.Option.{option_copied};
ghost use Rattle.sil_cfg_items.specs.Items.{arg_value};
ghost use Rattle.holder_model_typing.specs.holder_model.RunTyping.EndForms.{value_in};
ghost use Rattle.sil_ast.specs.declared.function.Function.{Function};
ghost use Rattle.sil_types_declarations.specs.TypeDefinitions.Declarations.{Declarations};
ghost use Rattle.count_machine_model.specs.ReadyCode.Layout as spec;
ghost use Rattle.count_machine_layouts.specs.FrameLayouts.inner.Carried.{address_between, value_between};
ghost use Rattle.count_machine_layouts.specs.FrameLayouts.inner.Layouts.{layout_of};

use crate::frame_layouts::layout::{Kept, Layout};
use count_machine_model::{Carry, CarryAddress};
use sil_ast::{BlockArg, Exhausted, List, Operand};
use std::alloc::Global;

/// The argument with this number.
fn arg_at(args: &[BlockArg], k: usize) -> Option<&BlockArg>
    ensures { option_copied result ≡ slice_get args.now k }
{
    args.get(k)
}

/// The value of an operand, if it has leaves, to an argument, if there is one.
fn value_carried(
    from: &Layout,
    to: &Layout,
    operand: &Operand,
    arg: Option<&BlockArg>,
) -> Option<Carry>
    ensures { result ≡ value_between from.now to.now operand.now (option_copied arg.entry) }
{
    match (from.kept(operand.value), arg) {
        (Kept::Leaves(_), Some(arg)) => Some(Carry {
            from: from.local(operand.value),
            to: to.local(arg.value),
        }),
        _ => None,
    }
}

/// The value of an operand, if it is an address, to an argument, if there is one.
fn address_carried(
    from: &Layout,
    to: &Layout,
    operand: &Operand,
    arg: Option<&BlockArg>,
) -> Option<CarryAddress>
    ensures { result ≡ address_between from.now to.now operand.now (option_copied arg.entry) }
{
    match (from.kept(operand.value), arg) {
        (Kept::Address { .. }, Some(arg)) => Some(CarryAddress {
            from: from.address(operand.value),
            to: to.address(arg.value),
        }),
        _ => None,
    }
}

/// Of some operands the values that are carried to as many arguments.
pub fn values_carried(
    alloc: Global,
    from: &Layout,
    to: &Layout,
    operands: &[Operand],
    args: &[BlockArg],
) -> Result<List<Carry>, Exhausted>
    ensures { (d : Declarations) (f g : Function) → from.now ≡ layout_of d f → to.now ≡ layout_of d g
        → IfOk result (λ values. values ≡ spec.values_carried d f g (map value_in operands.now) (map arg_value args.now)) }
{
    let mut values = List::with_capacity(alloc, operands.len())?;
    for (k, operand) in operands.iter().enumerate() {
        if let Some(carry) = value_carried(from, to, operand, arg_at(args, k)) {
            values.push(carry)?;
        }
    }
    Ok(values)
}

/// Of some operands the addresses that are handed to as many arguments.
pub fn addresses_carried(
    alloc: Global,
    from: &Layout,
    to: &Layout,
    operands: &[Operand],
    args: &[BlockArg],
) -> Result<List<CarryAddress>, Exhausted>
    ensures { (d : Declarations) (f g : Function) → from.now ≡ layout_of d f → to.now ≡ layout_of d g
        → IfOk result (λ addresses. addresses ≡ spec.addresses_carried d f g (map value_in operands.now) (map arg_value args.now)) }
{
    let mut addresses = List::new(alloc);
    for (k, operand) in operands.iter().enumerate() {
        if let Some(carry) = address_carried(from, to, operand, arg_at(args, k)) {
            addresses.push(carry)?;
        }
    }
    Ok(addresses)
}
