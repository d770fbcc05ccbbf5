//! What is known of the values so far.

ghost use Rattle.std.specs.Prelude.{◌≡◌, option_map};
ghost use Rattle.std.specs.List.{list_all};
ghost use Rattle.ownership_kinds_chains.specs.OwnershipChains.Facts as facts;
ghost use Rattle.ownership_kinds_chains.specs.OwnershipChains.Facts.{told_at, is_known, known_or};

use sil_ast::{ShortList, ValueId};
use sil_types_declarations::Kind;

/// The kind of a value, and its bases in ascending order.
#[derive(Drop)]
pub struct Facts {
    pub kind: Kind,
    pub bases: ShortList<ValueId, 4>,
}

pub(crate) fn is_owned(kind: Kind) -> bool
    ensures { result ≡ facts.is_owned kind }
{
    matches!(kind, Kind::Owned)
}

pub(crate) fn is_guaranteed(kind: Kind) -> bool
    ensures { result ≡ facts.is_guaranteed kind }
{
    matches!(kind, Kind::Guaranteed)
}

/// The kind of the value, where a table tells it.
pub fn kind_of(table: &[Option<Facts>], value: ValueId) -> Option<Kind>
    ensures { result ≡ option_map (λ f. f.kind) (told_at table.now value) }
{
    match table.get(value.0 as usize) {
        Some(Some(facts)) => Some(facts.kind),
        _ => None,
    }
}

/// The bases of the value in ascending order, and none where a table doesn't tell them.
pub fn bases_of(table: &[Option<Facts>], value: ValueId) -> &[ValueId]
    ensures { result.now ≡ (known_or (told_at table.now) value).bases }
{
    match table.get(value.0 as usize) {
        Some(Some(facts)) => facts.bases.as_slice(),
        _ => &[],
    }
}

/// Whether something is known of the value.
pub(crate) fn is_known(table: &[Option<Facts>], value: ValueId) -> bool
    ensures { result ≡ is_known (told_at table.now) value }
{
    match table.get(value.0 as usize) {
        Some(Some(_)) => true,
        _ => false,
    }
}

/// The kind of the value, and Plain where nothing is known.
pub(crate) fn kind_at(table: &[Option<Facts>], value: ValueId) -> Kind
    ensures { result ≡ (known_or (told_at table.now) value).kind }
{
    match table.get(value.0 as usize) {
        Some(Some(facts)) => facts.kind,
        _ => Kind::Plain,
    }
}

/// Whether something is known of each of the values.
pub(crate) fn are_known(table: &[Option<Facts>], values: &[ValueId]) -> bool
    ensures { result ≡ list_all (is_known (told_at table.now)) values.now }
{
    for value in values {
        if !is_known(table, *value) {
            return false;
        }
    }
    true
}
