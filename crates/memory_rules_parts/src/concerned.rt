//! The values that concern parts. Most accesses have to do with none of them, and no part is asked for these.

ghost use Rattle.std.specs.Prelude.{◌≡◌, All, true, length};
ghost use Rattle.std.specs.List.{list_any};
ghost use Rattle.std.specs.Option.{option_copied};
ghost use Rattle.ownership_kinds_chains.specs.OwnershipMarks.Known.{facts_of};
ghost use Rattle.memory_rules_parts.specs.inner.Concerned as values;
ghost use Rattle.memory_rules_parts.specs.inner.Concerned.{AreConcerned, IsConcerned, Keeps};
ghost use Rattle.memory_rules_parts.specs.inner.Keys.{root_key};

use crate::index::value_row;
use crate::part::Part;
use memory_rules_accesses::{Access, Location, Memory};
use ownership_kinds_chains::Kinds;
use sil_ast::ValueId;

/// Whether the value concerns them, or another one that shares its row.
fn is_concerned(concerned: &[bool], value: ValueId) -> bool
    ensures { result ≡ values.is_concerned concerned.now value }
{
    match concerned.get(value_row(value)) {
        None => false,
        Some(is) => *is,
    }
}

fn add_value(concerned: &mut [bool], value: ValueId)
    requires { length concerned.old ≡ 1024 }
    ensures kept { Keeps concerned.old concerned.new }
    ensures there { values.is_concerned concerned.new value ≡ true }
{
    concerned[value_row(value)] = true;
}

fn add_root(concerned: &mut [bool], location: Option<&Location>)
    requires { length concerned.old ≡ 1024 }
    ensures kept { Keeps concerned.old concerned.new }
    ensures there { All (λ key. values.has_key concerned.new key ≡ true) (root_key (option_copied location.entry)) }
{
    if let Some(l) = location {
        add_value(concerned, l.root);
    }
}

/// Adds the values that concern the part.
fn add_part(concerned: &mut [bool], m: &Memory, part: Part)
    requires { length concerned.old ≡ 1024 }
    ensures kept { Keeps concerned.old concerned.new }
    ensures there { IsConcerned m.now concerned.new part }
{
    match part {
        Part::Contents { cell, .. } => add_value(concerned, cell.subject),
        Part::Allocation { slot } => add_value(concerned, slot),
        Part::Lent { scope, address } => {
            add_value(concerned, scope);
            add_root(concerned, m.location(address));
        }
        Part::Building { object, .. } => add_value(concerned, object),
        Part::InScope { address, scope } => {
            add_value(concerned, scope);
            add_value(concerned, address);
        }
        Part::InSlot { address, slot } => {
            add_value(concerned, slot);
            add_value(concerned, address);
        }
    }
}

/// Adds the values that concern the parts.
pub(crate) fn add_parts(concerned: &mut [bool], m: &Memory, batch: &[Part])
    requires { length concerned.old ≡ 1024 }
    ensures { AreConcerned m.now batch.now concerned.new }
{
    for part in batch {
        add_part(concerned, m, *part);
    }
}

/// Whether the root of the location concerns them.
fn has_root(concerned: &[bool], location: Option<&Location>) -> bool
    ensures { result ≡ values.has_root concerned.now (option_copied location.entry) }
{
    match location {
        None => false,
        Some(l) => is_concerned(concerned, l.root),
    }
}

/// Whether the object that is built through the base concerns them.
fn is_built(concerned: &[bool], m: &Memory, base: ValueId) -> bool
    ensures { result ≡ values.is_built m.now concerned.now base }
{
    match m.object_built(base) {
        None => false,
        Some(object) => is_concerned(concerned, object),
    }
}

fn any_built(concerned: &[bool], m: &Memory, bases: &[ValueId]) -> bool
    ensures { result ≡ list_any (values.is_built m.now concerned.now) bases.now }
{
    for base in bases {
        if is_built(concerned, m, *base) {
            return true;
        }
    }
    false
}

/// Whether the access may mean something to a part, if `concerned` has the values that concern the parts.
pub(crate) fn may_mean(concerned: &[bool], m: &Memory, k: &Kinds, access: Access) -> bool
    ensures { result ≡ values.may_mean m.now (facts_of k.now) concerned.now access }
{
    match access {
        Access::Ends(v) | Access::Begins(v) | Access::Allocates(v) => is_concerned(concerned, v),
        Access::Given(v, _) => is_concerned(concerned, v),
        Access::Deallocates(v) => is_concerned(concerned, v) || has_root(concerned, m.location(v)),
        Access::Does(_) => true,
        Access::Mentions { value, .. } => {
            is_concerned(concerned, value) || any_built(concerned, m, k.bases(value))
        }
    }
}
