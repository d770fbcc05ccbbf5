//! The facts of one value, from what is known of its operands.

ghost use Rattle.std.specs.Prelude.{◌≡◌, ◌<◌, ℕ, IfOk, [], ◌∷◌, length, take};
ghost use Rattle.std.specs.List.{list_any};
ghost use Rattle.ownership_kinds_chains.specs.OwnershipChains.Facts as facts;
ghost use Rattle.ownership_kinds_chains.specs.OwnershipChains.Facts.{told_at, known_or, forwarded, by_kind, told_by};
ghost use Rattle.ownership_kinds_chains.specs.OwnershipChains.Steps.{told_from};
ghost use Rattle.ownership_kinds_chains.specs.OwnershipChains.inner.Settling.{AreListed};

use crate::ownership_chains::bases::together;
use crate::ownership_chains::definition::{Definition, Origin};
use crate::ownership_chains::facts::{Facts, are_known, is_guaranteed, is_owned, kind_at};
use sil_ast::{Exhausted, ShortList, ValueId};
use sil_types_declarations::Kind;
use std::alloc::Global;

fn any_owned(table: &[Option<Facts>], operands: &[ValueId]) -> bool
    ensures { result ≡ list_any (λ w. facts.is_owned (known_or (told_at table.now) w).kind) operands.now }
{
    for operand in operands {
        if is_owned(kind_at(table, *operand)) {
            return true;
        }
    }
    false
}

fn any_guaranteed(table: &[Option<Facts>], operands: &[ValueId]) -> bool
    ensures { result ≡ list_any (λ w. facts.is_guaranteed (known_or (told_at table.now) w).kind) operands.now }
{
    for operand in operands {
        if is_guaranteed(kind_at(table, *operand)) {
            return true;
        }
    }
    false
}

/// The kind that the operands forward.
fn forwarded_kind(table: &[Option<Facts>], operands: &[ValueId]) -> Kind
    ensures { result ≡ forwarded (known_or (told_at table.now)) operands.now }
{
    if any_owned(table, operands) {
        return Kind::Owned;
    }
    if any_guaranteed(table, operands) {
        return Kind::Guaranteed;
    }
    Kind::Plain
}

/// One value.
fn alone(alloc: Global, value: ValueId) -> Result<ShortList<ValueId, 4>, Exhausted>
    ensures { IfOk result (λ values. values ≡ value ∷ []) }
{
    let mut values = ShortList::new(alloc);
    values.push(value)?;
    Ok(values)
}

/// The first of some values, if there is one.
fn first_alone(values: &[ValueId]) -> &[ValueId]
    ensures { result.now ≡ take 1 values.now }
{
    if values.len() > 1 {
        &values[..1]
    } else {
        values
    }
}

/// The facts of a value that has this kind from its operands.
fn facts_by_kind(
    alloc: Global,
    table: &[Option<Facts>],
    operands: &[ValueId],
    value: ValueId,
    kind: Kind,
) -> Result<Facts, Exhausted>
    ensures { IfOk result (λ f. (count : ℕ) → AreListed count (told_at table.now) → f ≡ by_kind count value (known_or (told_at table.now)) operands.now kind) }
{
    let bases = match kind {
        Kind::Owned => alone(alloc, value)?,
        Kind::Guaranteed => together(alloc, table, operands, true)?,
        Kind::Plain => ShortList::new(alloc),
    };
    Ok(Facts { kind, bases })
}

/// The facts of a value of this origin.
fn facts_by_origin(
    alloc: Global,
    table: &[Option<Facts>],
    operands: &[ValueId],
    value: ValueId,
    origin: Origin,
) -> Result<Facts, Exhausted>
    ensures { IfOk result (λ f. (count : ℕ) → AreListed count (told_at table.now)
        → f ≡ told_by count value (known_or (told_at table.now)) operands.now origin) }
{
    match origin {
        Origin::Owned => facts_by_kind(alloc, table, operands, value, Kind::Owned),
        Origin::Plain => facts_by_kind(alloc, table, operands, value, Kind::Plain),
        Origin::Lent => facts_by_kind(alloc, table, operands, value, Kind::Guaranteed),
        Origin::Forward => {
            let kind = forwarded_kind(table, operands);
            facts_by_kind(alloc, table, operands, value, kind)
        }
        Origin::Same => {
            let first = first_alone(operands);
            let kind = forwarded_kind(table, first);
            facts_by_kind(alloc, table, first, value, kind)
        }
        Origin::Lender => {
            let bases = alone(alloc, value)?;
            Ok(Facts {
                kind: Kind::Guaranteed,
                bases,
            })
        }
        Origin::Address => {
            let bases = together(alloc, table, operands, false)?;
            Ok(Facts {
                kind: Kind::Plain,
                bases,
            })
        }
    }
}

/// The value's facts, where those of all its operands are known.
pub(crate) fn facts_of(
    alloc: Global,
    defs: &[Definition],
    table: &[Option<Facts>],
    value: ValueId,
) -> Result<Option<Facts>, Exhausted>
    requires inside { value.0 < length defs.now }
    requires listed { AreListed (length defs.now) (told_at table.now) }
    ensures { IfOk result (λ o. o ≡ told_from defs.now (told_at table.now) value) }
{
    let def = &defs[value.0 as usize];
    let operands = def.operands.as_slice();
    if !are_known(table, operands) {
        return Ok(None);
    }
    let facts = facts_by_origin(alloc, table, operands, value, def.origin)?;
    Ok(Some(facts))
}
