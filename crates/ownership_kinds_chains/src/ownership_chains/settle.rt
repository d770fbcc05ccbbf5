//! The facts of all values whose chains end.

ghost use Rattle.std.specs.Prelude.{◌≡◌, ◌<◌, IfOk, length, None};
ghost use Rattle.sil_ast.specs.declared.place.ValueId.{ValueId};
ghost use Rattle.ownership_kinds_chains.specs.OwnershipChains.Chains.{IsInRange};
ghost use Rattle.ownership_kinds_chains.specs.OwnershipChains.Facts.{told_at};
ghost use Rattle.ownership_kinds_chains.specs.OwnershipChains.inner.Outcome.{IsExact};
ghost use Rattle.ownership_kinds_chains.specs.OwnershipChains.inner.Settling.{AreStuck, IsSound, Settles, Sweeps};

use crate::ownership_chains::definition::Definition;
use crate::ownership_chains::derive::facts_of;
use crate::ownership_chains::facts::{Facts, is_known};
use sil_ast::{Exhausted, ValueId};
use std::alloc::Global;

/// Finds the facts of one value, if they aren't known yet and those of its operands are.
fn settle_one(
    alloc: Global,
    defs: &[Definition],
    table: &mut [Option<Facts>],
    value: ValueId,
) -> Result<bool, Exhausted>
    requires inside { value.0 < length defs.now }
    requires size { length table.old ≡ length defs.now }
    requires sound { IsSound defs.now (told_at table.old) }
    ensures sound { IfOk result (λ _. IsSound defs.now (told_at table.new)) }
    ensures settles { IfOk result (λ moved. Settles defs.now table.old table.new value moved) }
{
    if is_known(table, value) {
        return Ok(false);
    }
    match facts_of(alloc, defs, table, value)? {
        None => Ok(false),
        Some(facts) => {
            table[value.0 as usize] = Some(facts);
            Ok(true)
        }
    }
}

/// Goes over all values once, and tells whether something new was found.
fn sweep(alloc: Global, defs: &[Definition], table: &mut [Option<Facts>]) -> Result<bool, Exhausted>
    requires range { IsInRange defs.now }
    requires size { length table.old ≡ length defs.now }
    requires sound { IsSound defs.now (told_at table.old) }
    ensures sound { IfOk result (λ _. IsSound defs.now (told_at table.new)) }
    ensures sweeps { IfOk result (λ moved. Sweeps defs.now table.old table.new (length defs.now) moved) }
{
    let mut moved = false;
    for number in 0..defs.len() {
        if settle_one(alloc, defs, table, ValueId(number as u32))? {
            moved = true;
        }
    }
    Ok(moved)
}

/// Looks at the values in the order of the advice.
fn settle_along(
    alloc: Global,
    defs: &[Definition],
    table: &mut [Option<Facts>],
    advice: &[usize],
) -> Result<(), Exhausted>
    requires range { IsInRange defs.now }
    requires size { length table.old ≡ length defs.now }
    requires sound { IsSound defs.now (told_at table.old) }
    ensures { IfOk result (λ _. IsSound defs.now (told_at table.new)) }
{
    for number in advice {
        if *number < defs.len() {
            settle_one(alloc, defs, table, ValueId(*number as u32))?;
        }
    }
    Ok(())
}

/// Finds all that can be found. With good advice it takes two looks at each value.
fn settle(
    alloc: Global,
    defs: &[Definition],
    table: &mut [Option<Facts>],
    advice: &[usize],
) -> Result<(), Exhausted>
    requires range { IsInRange defs.now }
    requires size { length table.old ≡ length defs.now }
    requires none { (v : ValueId) → told_at table.old v ≡ None }
    ensures exact { IfOk result (λ _. IsExact defs.now (told_at table.new)) }
    ensures stuck { IfOk result (λ _. AreStuck defs.now (told_at table.new) (length defs.now)) }
{
    settle_along(alloc, defs, table, advice)?;
    let mut moved = true;
    while moved {
        moved = sweep(alloc, defs, table)?;
    }
    Ok(())
}

/// The facts of each value whose chains all end, and nothing for the others.
pub(crate) fn all_facts(
    alloc: Global,
    defs: &[Definition],
    advice: &[usize],
) -> Result<Vec<Option<Facts>>, Exhausted>
    requires { IsInRange defs.now }
    ensures size { IfOk result (λ table. length table.items ≡ length defs.now) }
    ensures exact { IfOk result (λ table. IsExact defs.now (told_at table.items)) }
    ensures stuck { IfOk result (λ table. AreStuck defs.now (told_at table.items) (length defs.now)) }
{
    let mut table = Vec::with_capacity(alloc, defs.len())?;
    for _ in 0..defs.len() {
        table.push(None)?;
    }
    settle(alloc, defs, table.as_mut_slice(), advice)?;
    Ok(table)
}
