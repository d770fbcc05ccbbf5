//! New numbers in the places of old ones.

ghost use Rattle.std.specs.Prelude.{◌≡◌, map};
ghost use Rattle.ownership_lowering_model.specs.Numbers as renumbered;
ghost use Rattle.ownership_lowering_functions.specs.ValueRenumbering.inner.NewNumbers.{number_in};

use crate::value_renumbering::new_numbers::NewNumbers;
use sil_ast::{Edge, Inst, Operand, ValueId};

fn renumber_values(numbers: &NewNumbers, values: &mut [ValueId])
    ensures { values.new ≡ map (number_in numbers.now) values.old }
{
    for value in values.iter_mut() {
        *value = numbers.number(*value);
    }
}

fn renumber_operands(numbers: &NewNumbers, operands: &mut [Operand])
    ensures { operands.new ≡ map (renumbered.renumbered_operand (number_in numbers.now)) operands.old }
{
    for operand in operands.iter_mut() {
        operand.value = numbers.number(operand.value);
    }
}

fn renumber_edges(numbers: &NewNumbers, edges: &mut [Edge])
    ensures { edges.new ≡ map (renumbered.renumbered_edge (number_in numbers.now)) edges.old }
{
    for edge in edges.iter_mut() {
        renumber_operands(numbers, edge.args.as_mut_slice());
    }
}

/// Gives the values that an instruction names their new numbers.
pub fn renumber_inst(numbers: &NewNumbers, inst: &mut Inst)
    ensures { inst.new ≡ renumbered.renumbered_inst (number_in numbers.now) inst.old }
{
    renumber_values(numbers, inst.results.as_mut_slice());
    renumber_operands(numbers, inst.operands.as_mut_slice());
    renumber_edges(numbers, inst.edges.as_mut_slice());
}
