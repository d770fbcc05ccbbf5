//! Values numbered by their places in a list.

ghost use Rattle.std.specs.Prelude.{◌≡◌, ◌<◌, ◌^◌, All, IfOk, length};
ghost use Rattle.sil_ast.specs.declared.place.ValueId.{ValueId};
ghost use Rattle.ownership_lowering_model.specs.Numbers.{place_among};
ghost use Rattle.ownership_lowering_functions.specs.ValueRenumbering.inner.NewNumbers.{place_in};
ghost use Rattle.ownership_lowering_functions.specs.ValueRenumbering.inner.Places.{ArePlaced};

use crate::value_renumbering::new_numbers::Places;
use sil_ast::{Exhausted, List, ValueId};
use std::alloc::Global;

/// The least number behind those of all the values.
fn behind_all(values: &[ValueId]) -> usize
    ensures { All (λ v. v.0 < result) values.now }
{
    let mut behind = 0;
    for value in values {
        behind = behind.max(value.0 as usize + 1);
    }
    behind
}

/// Writes at each value its place among these, from the last one on: of a value that stands there twice the first place stays.
fn write_places(numbers: &mut [ValueId], defined: &[ValueId])
    requires few { length defined.now < 2 ^ 32 }
    requires room { All (λ v. v.0 < length numbers.old) defined.now }
    requires unplaced { ArePlaced numbers.old defined.now (length defined.now) }
    ensures { ArePlaced numbers.new defined.now 0 }
{
    for place in (0..defined.len()).rev() {
        numbers[defined[place].0 as usize] = ValueId(place as u32);
    }
}

/// Numbers each value by its place among those that are defined. All others have the number behind these. Fails where memory runs out.
pub fn numbers_by_place(alloc: Global, defined: &[ValueId]) -> Result<Places, Exhausted>
    requires { length defined.now < 2 ^ 32 }
    ensures { IfOk result (λ table. (v : ValueId) → place_in table v ≡ place_among defined.now v) }
{
    let others = ValueId(defined.len() as u32);
    let mut numbers = vec![in alloc; others; behind_all(defined)]?;
    write_places(numbers.as_mut_slice(), defined);
    Ok(Places {
        numbers: List::from_vec(numbers),
        others,
    })
}
