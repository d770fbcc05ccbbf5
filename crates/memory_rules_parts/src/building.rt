//! Fields of new objects that are still to be written: rule 607.

ghost use Rattle.std.specs.Prelude.{◌≡◌};
ghost use Rattle.std.specs.List.{list_any};
ghost use Rattle.std.specs.Option.{option_copied};
ghost use Rattle.ownership_kinds_chains.specs.OwnershipMarks.Known.{facts_of};
ghost use Rattle.memory_rules_parts.specs.Building as building;

use crate::contents::at_location;
use crate::switch::{is_same, is_turned_on, when};
use memory_rules_accesses::{Access, Allowance, Cell, Location, Memory, Operation};
use ownership_kinds_chains::Kinds;
use reach_engine_marks::Mark;
use sil_ast::ValueId;
use sil_rules::Rule;
use sil_types_declarations::Kind;

/// Whether the operation at the location turns the contents of the cell on.
fn fills(m: &Memory, cell: Cell, operation: Operation, location: Option<&Location>) -> bool
    ensures { result ≡ building.fills m.now cell operation (option_copied location.entry) }
{
    is_turned_on(at_location(m, cell, operation, location))
}

fn takes_object(allowance: Allowance) -> bool
    ensures { result ≡ building.takes_object allowance }
{
    match allowance {
        Allowance::FreshObject | Allowance::BothOfThem => true,
        Allowance::NeitherOfThem | Allowance::BuildingBorrow => false,
    }
}

fn takes_borrow(allowance: Allowance) -> bool
    ensures { result ≡ building.takes_borrow allowance }
{
    match allowance {
        Allowance::BuildingBorrow | Allowance::BothOfThem => true,
        Allowance::NeitherOfThem | Allowance::FreshObject => false,
    }
}

/// Whether the value is a building borrow of the object.
fn builds(m: &Memory, object: ValueId, value: ValueId) -> bool
    ensures { result ≡ building.builds m.now object value }
{
    match m.object_built(value) {
        None => false,
        Some(built) => is_same(built, object),
    }
}

fn any_builds(m: &Memory, object: ValueId, bases: &[ValueId]) -> bool
    ensures { result ≡ list_any (building.builds m.now object) bases.now }
{
    for base in bases {
        if builds(m, object, *base) {
            return true;
        }
    }
    false
}

/// Whether the value is Guaranteed and goes by a building borrow of the object, as the borrow itself does.
fn goes_by_borrow(m: &Memory, k: &Kinds, object: ValueId, value: ValueId) -> bool
    ensures { result ≡ building.goes_by_borrow m.now (facts_of k.now value) object }
{
    match k.kind(value) {
        Kind::Guaranteed => any_builds(m, object, k.bases(value)),
        Kind::Owned | Kind::Plain => false,
    }
}

/// Whether the operand is one that no unfinished object may be: the object, a building borrow of it, or a value that goes by one.
fn is_forbidden(
    m: &Memory,
    k: &Kinds,
    object: ValueId,
    value: ValueId,
    allowance: Allowance,
) -> bool
    ensures { result ≡ building.is_forbidden m.now (facts_of k.now) object value allowance }
{
    let of_object = is_same(value, object) && !takes_object(allowance);
    let of_borrow = goes_by_borrow(m, k, object, value)
        && !(builds(m, object, value) && takes_borrow(allowance));
    of_object || of_borrow
}

/// What an access means to a field of a new object.
pub(crate) fn building_mark(
    m: &Memory,
    k: &Kinds,
    object: ValueId,
    field: usize,
    access: Access,
) -> Option<Mark>
    ensures { result ≡ building.building_mark m.now (facts_of k.now) object field access }
{
    match access {
        Access::Ends(_) | Access::Begins(_) | Access::Deallocates(_) | Access::Given(_, _) => None,
        Access::Allocates(v) => when(is_same(v, object), Mark::turns_on(Rule::FieldNotBuilt)),
        Access::Does(x) => {
            let cell = Cell {
                subject: object,
                field: Some(field),
            };
            when(
                fills(m, cell, x.operation, m.location(x.address)),
                Mark::turns_off(Rule::FieldNotBuilt),
            )
        }
        Access::Mentions { value, allowance } => when(
            is_forbidden(m, k, object, value, allowance),
            Mark::needs_off(Rule::FieldNotBuilt),
        ),
    }
}
