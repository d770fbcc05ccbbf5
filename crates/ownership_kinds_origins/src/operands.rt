//! The values of an instruction's operands.

ghost use Rattle.std.specs.Prelude.{◌≡◌, IfOk, map};
ghost use Rattle.std.specs.Option.{option_to_list};
ghost use Rattle.numbered_form.specs.ValueTables.FirstValue.{value_of};

use sil_ast::{Exhausted, Operand, ShortList, ValueId};
use std::alloc::Global;

/// The values of some operands, in order.
pub(crate) fn operand_values(
    alloc: Global,
    operands: &[Operand],
) -> Result<ShortList<ValueId, 4>, Exhausted>
    ensures { IfOk result (λ values. values ≡ map value_of operands.now) }
{
    let mut values = ShortList::new(alloc);
    for operand in operands {
        values.push(operand.value)?;
    }
    Ok(values)
}

/// One value, or none.
pub(crate) fn one_or_none(
    alloc: Global,
    value: Option<ValueId>,
) -> Result<ShortList<ValueId, 4>, Exhausted>
    ensures { IfOk result (λ values. values ≡ option_to_list value) }
{
    let mut values = ShortList::new(alloc);
    if let Some(value) = value {
        values.push(value)?;
    }
    Ok(values)
}
