//! The marks of each item: operands that end, operands that are used, and values that begin.

ghost use Rattle.std.specs.Prelude.{◌≡◌, ◌++◌, [], ◌∷◌, cond, length, map, IfOk, OnOk};
ghost use Rattle.std.specs.List.{flat_map};
ghost use Rattle.std.specs.Option.{option_copied};
ghost use Rattle.sil_ast.specs.declared.place.ValueId.{ValueId};
ghost use Rattle.sil_cfg.specs.Layout.{item_count};
ghost use Rattle.sil_cfg_items.specs.Items.{arg_value, item_defined};
ghost use Rattle.ownership_kinds_chains.specs.OwnershipChains.Facts.{told_at};
ghost use Rattle.ownership_kinds_chains.specs.OwnershipMarks.Known.{AreMarksOf, marks_in};
ghost use Rattle.ownership_kinds_chains.specs.OwnershipMarks.Marks as marks;
ghost use Rattle.ownership_kinds_chains.specs.OwnershipMarks.Marks.{begun, end_of, ended, ended_by, marks_of, use_of, used};

use crate::ownership_chains::Facts;
use crate::ownership_marks::mark::{Mark, MarkSort};
use instruction_table::Role;
use number_tables::ItemLists;
use sil_ast::{BlockArg, Exhausted, Function, ValueId};
use sil_cfg::{Graph, Item};
use sil_cfg_items::{Taken, add_item_taken, item_arguments, item_results};
use sil_types_declarations::Kind;
use std::alloc::Global;

/// What a table tells of a value.
pub(crate) fn facts_at(table: &[Option<Facts>], value: ValueId) -> Option<&Facts>
    ensures { option_copied result ≡ told_at table.now value }
{
    match table.get(value.0 as usize) {
        Some(Some(facts)) => Some(facts),
        _ => None,
    }
}

/// Whether the role ends an Owned value.
fn ends_owned(role: Role) -> bool
    ensures { result ≡ marks.ends_owned role }
{
    match role {
        Role::Consumed | Role::Forwarded => true,
        Role::Used
        | Role::Lent
        | Role::AddressRole
        | Role::AnyRole
        | Role::ScopeRole
        | Role::ByParameter
        | Role::Counted => false,
    }
}

/// Whether the role ends a scope.
fn ends_scope(role: Role) -> bool
    ensures { result ≡ marks.ends_scope role }
{
    match role {
        Role::ScopeRole => true,
        Role::Consumed
        | Role::Forwarded
        | Role::Used
        | Role::Lent
        | Role::AddressRole
        | Role::AnyRole
        | Role::ByParameter
        | Role::Counted => false,
    }
}

/// Whether the role ends a value of this kind.
fn ends(kind: Kind, role: Role) -> bool
    ensures { (v : ValueId) → ended_by kind role v ≡ cond result (end_of v ∷ []) [] }
{
    match kind {
        Kind::Owned => ends_owned(role),
        Kind::Guaranteed => ends_scope(role),
        Kind::Plain => false,
    }
}

fn add_end(marks: &mut Vec<Mark>, table: &[Option<Facts>], taken: Taken) -> Result<(), Exhausted>
    ensures { OnOk result (marks.new.items ≡ marks.old.items ++ ended (told_at table.now) taken) }
{
    if let Some(facts) = facts_at(table, taken.value) {
        if ends(facts.kind, taken.role) {
            marks.push(Mark {
                subject: taken.value,
                sort: MarkSort::End,
            })?;
        }
    }
    Ok(())
}

fn add_ends(
    marks: &mut Vec<Mark>,
    table: &[Option<Facts>],
    taken: &[Taken],
) -> Result<(), Exhausted>
    ensures { OnOk result (marks.new.items ≡ marks.old.items ++ flat_map (ended (told_at table.now)) taken.now) }
{
    for one in taken {
        add_end(marks, table, *one)?;
    }
    Ok(())
}

fn add_uses_of(marks: &mut Vec<Mark>, values: &[ValueId]) -> Result<(), Exhausted>
    ensures { OnOk result (marks.new.items ≡ marks.old.items ++ map use_of values.now) }
{
    for value in values {
        marks.push(Mark {
            subject: *value,
            sort: MarkSort::Use,
        })?;
    }
    Ok(())
}

/// The uses that an operand makes: of an Owned value, or of the bases of a Guaranteed one.
fn add_use(marks: &mut Vec<Mark>, table: &[Option<Facts>], taken: Taken) -> Result<(), Exhausted>
    ensures { OnOk result (marks.new.items ≡ marks.old.items ++ used (told_at table.now) taken) }
{
    let Some(facts) = facts_at(table, taken.value) else {
        return Ok(());
    };
    match facts.kind {
        Kind::Owned => {
            if ends_owned(taken.role) {
                Ok(())
            } else {
                add_uses_of(marks, &[taken.value])
            }
        }
        Kind::Guaranteed => {
            if ends_scope(taken.role) {
                Ok(())
            } else {
                add_uses_of(marks, facts.bases.as_slice())
            }
        }
        Kind::Plain => Ok(()),
    }
}

fn add_uses(
    marks: &mut Vec<Mark>,
    table: &[Option<Facts>],
    taken: &[Taken],
) -> Result<(), Exhausted>
    ensures { OnOk result (marks.new.items ≡ marks.old.items ++ flat_map (used (told_at table.now)) taken.now) }
{
    for one in taken {
        add_use(marks, table, *one)?;
    }
    Ok(())
}

/// Whether the value is one of these.
fn is_in(value: ValueId, values: &[ValueId]) -> bool
    ensures { result ≡ marks.is_in value values.now }
{
    values.iter().any(|other| other.0 == value.0)
}

/// Whether the value has a beginning of its own: an Owned one, a borrow, or a `@guaranteed` argument of the entry.
fn is_own_base(facts: &Facts, value: ValueId) -> bool
    ensures { result ≡ marks.is_own_base facts.now.kind value facts.now.bases }
{
    match facts.kind {
        Kind::Owned => true,
        Kind::Guaranteed => is_in(value, facts.bases.as_slice()),
        Kind::Plain => false,
    }
}

fn add_begin(
    marks: &mut Vec<Mark>,
    table: &[Option<Facts>],
    value: ValueId,
) -> Result<(), Exhausted>
    ensures { OnOk result (marks.new.items ≡ marks.old.items ++ begun (told_at table.now) value) }
{
    if let Some(facts) = facts_at(table, value) {
        if is_own_base(facts, value) {
            marks.push(Mark {
                subject: value,
                sort: MarkSort::Begin,
            })?;
        }
    }
    Ok(())
}

fn add_begins(
    marks: &mut Vec<Mark>,
    table: &[Option<Facts>],
    values: &[ValueId],
) -> Result<(), Exhausted>
    ensures { OnOk result (marks.new.items ≡ marks.old.items ++ flat_map (begun (told_at table.now)) values.now) }
{
    for value in values {
        add_begin(marks, table, *value)?;
    }
    Ok(())
}

fn add_begins_of_args(
    marks: &mut Vec<Mark>,
    table: &[Option<Facts>],
    args: &[BlockArg],
) -> Result<(), Exhausted>
    ensures { OnOk result (marks.new.items ≡ marks.old.items ++ flat_map (begun (told_at table.now)) (map arg_value args.now)) }
{
    for arg in args {
        add_begin(marks, table, arg.value)?;
    }
    Ok(())
}

/// The beginnings of the values that an item defines.
fn add_item_begins(
    marks: &mut Vec<Mark>,
    table: &[Option<Facts>],
    f: &Function,
    item: Item,
) -> Result<(), Exhausted>
    ensures { OnOk result (marks.new.items ≡ marks.old.items ++ flat_map (begun (told_at table.now)) (item_defined f.now item)) }
{
    add_begins(marks, table, item_results(f, item))?;
    add_begins_of_args(marks, table, item_arguments(f, item))
}

/// Makes `marks` those of an item: ends in the order of its operands, then uses, then beginnings.
/// What `taken` holds doesn't matter: it is memory for the operands.
pub(crate) fn make_marks(
    marks: &mut Vec<Mark>,
    table: &[Option<Facts>],
    f: &Function,
    item: Item,
    taken: &mut Vec<Taken>,
) -> Result<(), Exhausted>
    ensures { OnOk result (marks.new.items ≡ marks_of (told_at table.now) f.now item) }
{
    taken.clear();
    add_item_taken(taken, f, item)?;
    marks.clear();
    add_ends(marks, table, taken.as_slice())?;
    add_uses(marks, table, taken.as_slice())?;
    add_item_begins(marks, table, f, item)
}

/// The marks of an item, as those behind the items before. `own` and `taken` are room for them.
fn push_item(
    all: &mut ItemLists<Mark>,
    own: &mut Vec<Mark>,
    table: &[Option<Facts>],
    f: &Function,
    item: Item,
    taken: &mut Vec<Taken>,
) -> Result<(), Exhausted>
    ensures { OnOk result (all.new ≡ all.old ++ marks_of (told_at table.now) f.now item ∷ []) }
{
    make_marks(own, table, f, item, taken)?;
    all.push(own.as_slice())
}

/// The marks of every item of the function's graph, by the item's number. `table` has what is known of the values.
/// The time goes with the number of operands and the lengths of their lists of bases.
pub(crate) fn all_marks(
    alloc: Global,
    table: &[Option<Facts>],
    f: &Function,
    g: &Graph,
) -> Result<ItemLists<Mark>, Exhausted>
    ensures size { IfOk result (λ v. length v ≡ item_count g.now) }
    ensures marks { IfOk result (λ v. AreMarksOf (told_at table.now) f.now g.now (marks_in v)) }
{
    let mut taken = Vec::new(alloc);
    let mut own = Vec::new(alloc);
    let mut all = ItemLists::with_capacity(alloc, g.items())?;
    for i in 0..g.items() {
        push_item(&mut all, &mut own, table, f, g.item(i), &mut taken)?;
    }
    Ok(all)
}
