//! The value for which each value stands in lowered code.

ghost use Rattle.std.specs.Prelude.{◌≡◌, ◌<◌, IfOk, length};
ghost use Rattle.ownership_lowering_model.specs.Names as spec;
ghost use Rattle.ownership_kinds_chains.specs.OwnershipChains.Chains.{HasNoRing, IsInRange};
ghost use Rattle.ownership_lowering_functions.specs.FunctionLowering.inner.Standing.{AreRight, AreStillNoted, IsNoted};
ghost use Rattle.ownership_lowering_functions.specs.ValueRenumbering.inner.NewNumbers.{name_in};

use ownership_kinds_chains::Definition;
use sil_ast::{Exhausted, ValueId};
use std::alloc::Global;

/// The value for which this one is another name, by the renamings of its function.
fn renamed_from(renamings: &[Definition], value: ValueId) -> Option<ValueId>
    ensures { result ≡ spec.renamed_from renamings.now value }
{
    match renamings.get(value.0 as usize) {
        Some(renaming) => renaming.operands.get(0).copied(),
        None => None,
    }
}

/// Whether the value is another name for one.
pub(crate) fn is_other_name(renamings: &[Definition], value: ValueId) -> bool
    ensures { result ≡ spec.is_other_name renamings.now value }
{
    renamed_from(renamings, value).is_some()
}

/// The value for which this one stands: the end of its chain of names, or of the first part of it, behind which the end is noted.
fn stands_for(renamings: &[Definition], noted: &[Option<ValueId>], value: ValueId) -> ValueId
    requires range { IsInRange renamings.now }
    requires ends { HasNoRing renamings.now }
    requires right { AreRight renamings.now noted.now }
    ensures { result ≡ spec.stands_for renamings.now value }
{
    let mut at = value;
    // A chain has fewer steps than there are values.
    for _ in 0..renamings.len() {
        if let Some(Some(end)) = noted.get(at.0 as usize) {
            return *end;
        }
        match renamed_from(renamings, at) {
            Some(next) => at = next,
            None => return at,
        }
    }
    at
}

/// Notes the end of a value's chain of names at each name, up to the first where it is noted already.
fn note_chain(renamings: &[Definition], noted: &mut [Option<ValueId>], value: ValueId, end: ValueId)
    requires range { IsInRange renamings.now }
    requires ends { HasNoRing renamings.now }
    requires size { length noted.old ≡ length renamings.now }
    requires right { AreRight renamings.now noted.old }
    requires end { end ≡ spec.stands_for renamings.now value }
    ensures right { AreRight renamings.now noted.new }
    ensures stays { AreStillNoted noted.old noted.new }
    ensures noted { value.0 < length renamings.now → IsNoted noted.new value }
{
    let mut at = value;
    for _ in 0..renamings.len() {
        let index = at.0 as usize;
        if index >= noted.len() || noted[index].is_some() {
            return;
        }
        noted[index] = Some(end);
        match renamed_from(renamings, at) {
            Some(next) => at = next,
            None => return,
        }
    }
}

/// For each value of a function that is another name, by its renamings, the value for which it stands. Fails where memory runs out.
pub(crate) fn all_standings(
    alloc: Global,
    renamings: &[Definition],
) -> Result<Vec<Option<ValueId>>, Exhausted>
    requires range { IsInRange renamings.now }
    requires ends { HasNoRing renamings.now }
    ensures { IfOk result (λ noted. (v : ValueId) → name_in noted.items v ≡ spec.stands_for renamings.now v) }
{
    let mut noted = vec![in alloc; None; renamings.len()]?;
    for number in 0..renamings.len() {
        let value = ValueId(number as u32);
        if is_other_name(renamings, value) {
            let end = stands_for(renamings, noted.as_slice(), value);
            note_chain(renamings, noted.as_mut_slice(), value, end);
        }
    }
    Ok(noted)
}
