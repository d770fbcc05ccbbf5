//! The operands of values as a graph of numbers.

ghost use Rattle.std.specs.Prelude.{◌≡◌, IfOk, map};
ghost use Rattle.ownership_kinds_chains.specs.OwnershipChains.inner.Numbers.{number_of, numbers_of};

use crate::ownership_chains::definition::Definition;
use sil_ast::{Exhausted, List, ValueId};
use std::alloc::Global;

fn operand_numbers(alloc: Global, operands: &[ValueId]) -> Result<List<usize>, Exhausted>
    ensures { IfOk result (λ numbers. numbers ≡ map number_of operands.now) }
{
    let mut numbers = List::new(alloc);
    for operand in operands {
        numbers.push(operand.0 as usize)?;
    }
    Ok(numbers)
}

/// Of each value the numbers of its operands.
pub(crate) fn numbers_of(alloc: Global, defs: &[Definition]) -> Result<List<List<usize>>, Exhausted>
    ensures { IfOk result (λ graph. graph ≡ numbers_of defs.now) }
{
    let mut graph = List::with_capacity(alloc, defs.len())?;
    for def in defs {
        graph.push(operand_numbers(alloc, def.operands.as_slice())?)?;
    }
    Ok(graph)
}
