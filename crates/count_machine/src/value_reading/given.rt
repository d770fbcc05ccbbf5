//! The value that a function gives, from its leaves.

ghost use Rattle.std.specs.Prelude.{◌≡◌, ℕ, map, slice_get, IfOk};
ghost use Rattle.numbered_form.specs.Lists.{Each};
ghost use Rattle.holder_model.specs.RunTyping.Forms.{given_shape};
ghost use Rattle.holder_model.specs.RunTyping.Runnable.{IsRunnable};
ghost use Rattle.holder_model_values.specs.RunValues.Shapes as shape;
ghost use Rattle.holder_model_values.specs.RunValues.Shapes.{members_of, shape_of};
ghost use Rattle.sil_rules.specs.declared.limits.TheConstants.{DEPTH};
ghost use Rattle.sil_types_declarations.specs.TypeDefinitions.Declarations.{declarations_of};
ghost use Rattle.sil_types_declarations.specs.TypeDefinitions.Mentions.{direct_types};
ghost use Rattle.count_machine.specs.ValueReading.inner.Reading.{IsValueOf};
ghost use Rattle.count_machine.specs.ValueReading.inner.Levels.{IsReadable};

use crate::value_reading::leaves::{first_leaves, leaf_count, leaves_behind};
use crate::value_reading::read::{read_type, read_value};
use holder_model_values::{Leaf, Val};
use sil_ast::{Boxed, Exhausted, Function, Given, List, Module};
use sil_rules::limits::DEPTH;
use sil_types::{TypeTable, only_direct_type};
use std::alloc::Global;

/// The value that a function of a runnable module gives, which has these leaves: its one direct result, or the tuple of all.
pub fn read_given(
    alloc: Global,
    m: &Module,
    table: &TypeTable,
    function: &Function,
    leaves: &[Leaf],
) -> Result<Val, Exhausted>
    requires runnable { IsRunnable m.now }
    requires of_it { table.now ≡ declarations_of m.now }
    requires there { (n : ℕ) × (slice_get m.now.functions n ≡ Some function.now) }
    ensures { IfOk result (IsValueOf (given_shape table.now function.now) leaves.now) }
{
    let results = function.signature.results.as_slice();
    match only_direct_type(results) {
        Some(ty) => read_value(alloc, table, ty, leaves),
        None => read_results(alloc, table, results, leaves),
    }
}

/// The tuple of the direct results.
fn read_results(
    alloc: Global,
    table: &TypeTable,
    results: &[Given],
    leaves: &[Leaf],
) -> Result<Val, Exhausted>
    ensures { Each (IsReadable table.now DEPTH) (direct_types results.now)
        → IfOk result (IsValueOf (shape.Tuple (members_of (map (shape_of table.now) (direct_types results.now)))) leaves.now) }
{
    let mut members = List::new(alloc);
    let mut rest = leaves;
    for given in results {
        if !given.out {
            let count = leaf_count(table, &given.ty);
            let member = read_type(alloc, table, DEPTH, &given.ty, first_leaves(rest, count))?;
            members.push(member)?;
            rest = leaves_behind(rest, count);
        }
    }
    Ok(Val::Group(Boxed::new(alloc, members)?))
}
