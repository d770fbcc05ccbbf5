//! The new numbers of values: that of the value for which each stands.

ghost use Rattle.std.specs.Prelude.{◌≡◌, IfOk};
ghost use Rattle.sil_ast.specs.declared.place.ValueId.{ValueId};
ghost use Rattle.ownership_lowering_model.specs.Names.{stands_for};
ghost use Rattle.ownership_kinds_chains.specs.OwnershipChains.Chains.{HasNoRing, IsInRange};
ghost use Rattle.ownership_lowering_functions.specs.ValueRenumbering.inner.NewNumbers.{number_in, place_in};

use crate::function_lowering::names::all_standings;
use crate::value_renumbering::{NewNumbers, Places};
use ownership_kinds_chains::Definition;
use sil_ast::{Exhausted, List};
use std::alloc::Global;

/// The new numbers of all values, by those of the values that have names of their own. Fails where memory runs out.
pub(crate) fn numbers_of_names(
    alloc: Global,
    renamings: &[Definition],
    places: Places,
) -> Result<NewNumbers, Exhausted>
    requires range { IsInRange renamings.now }
    requires ends { HasNoRing renamings.now }
    ensures { IfOk result (λ table. (v : ValueId) → number_in table v ≡ place_in places (stands_for renamings.now v)) }
{
    let names = List::from_vec(all_standings(alloc, renamings)?);
    Ok(NewNumbers { names, places })
}
