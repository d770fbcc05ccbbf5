//! The table of some values: where they begin and end, and where none of them may be held.

ghost use Rattle.std.specs.Prelude.{◌≡◌, ◌++◌, map, OnOk};
ghost use Rattle.std.specs.List.{flat_map};
ghost use Rattle.ownership_kinds_chains.specs.OwnershipChains.Facts.{has};
ghost use Rattle.ownership_kinds_chains.specs.OwnershipMarks.Known.{marks_at};
ghost use Rattle.copy_pairing_model.specs.Removable as removal;
ghost use Rattle.copy_pairing_search.specs.BorrowableCopies.inner.Watched as tables;
ghost use Rattle.reach_engine_marks.specs.PathChecks.inner.Shared.{entry_if};
ghost use Rattle.copy_pairing_search.specs.BorrowableCopies.inner.Watched.{entries_by, off_entries, off_entry, turn_entries};

use ownership_kinds_chains::{Kinds, Mark, MarkSort};
use reach_engine_marks::{Entry, ItemTable};
use sil_ast::{Exhausted, ValueId};
use sil_cfg::Item;
use sil_rules::Rule;

pub(crate) fn is_sort(sort: MarkSort, other: MarkSort) -> bool
    ensures { result ≡ removal.is_sort sort other }
{
    match sort {
        MarkSort::End => matches!(other, MarkSort::End),
        MarkSort::Use => matches!(other, MarkSort::Use),
        MarkSort::Begin => matches!(other, MarkSort::Begin),
    }
}

/// Whether the value is one of these.
pub fn is_among(value: ValueId, values: &[ValueId]) -> bool
    ensures { result ≡ has values.now value.0 }
{
    values.iter().any(|other| other.0 == value.0)
}

/// Whether the mark is of this sort, and of one of these values.
pub fn is_mark(sort: MarkSort, values: &[ValueId], mark: Mark) -> bool
    ensures { result ≡ removal.is_mark sort values.now mark }
{
    is_sort(sort, mark.sort) && is_among(mark.subject, values)
}

/// None of these values is held.
fn add_off(entries: &mut Vec<Entry>, held: &[ValueId]) -> Result<(), Exhausted>
    ensures { OnOk result (entries.new.items ≡ entries.old.items ++ map off_entry held.now) }
{
    for value in held {
        entries.push(Entry {
            subject: value.0,
            mark: reach_engine_marks::Mark::needs_off(Rule::ConsumedWhileBorrowed),
        })?;
    }
    Ok(())
}

/// Where a value begins its switch is turned on, and where it ends off.
fn turned_by(sort: MarkSort) -> Option<reach_engine_marks::Mark>
    ensures { result ≡ tables.turned_by sort }
{
    let rule = Rule::ConsumedWhileBorrowed;
    match sort {
        MarkSort::Use => None,
        MarkSort::End => Some(reach_engine_marks::Mark::turns_off(rule)),
        MarkSort::Begin => Some(reach_engine_marks::Mark::turns_on(rule)),
    }
}

/// The turn of a mark's own value.
pub(crate) fn add_turn(entries: &mut Vec<Entry>, mark: Mark) -> Result<(), Exhausted>
    ensures { OnOk result (entries.new.items ≡ entries.old.items ++ entry_if mark.subject.0 (tables.turned_by mark.sort)) }
{
    if let Some(turn) = turned_by(mark.sort) {
        entries.push(Entry {
            subject: mark.subject.0,
            mark: turn,
        })?;
    }
    Ok(())
}

/// Values of which the table follows whether they are held, and the marks at which none of them may be: those of one sort, of some values.
#[derive(Drop)]
pub(crate) struct Watched<'a> {
    pub(crate) k: &'a Kinds,
    pub(crate) sort: MarkSort,
    pub(crate) values: &'a [ValueId],
    pub(crate) held: &'a [ValueId],
}

/// Where the mark is one of those, none of the values is held.
fn add_watched(entries: &mut Vec<Entry>, watched: &Watched, mark: Mark) -> Result<(), Exhausted>
    ensures { OnOk result (entries.new.items ≡ entries.old.items
        ++ off_entries watched.now.sort watched.now.values.now watched.now.held.now mark) }
{
    if is_mark(watched.sort, watched.values, mark) {
        add_off(entries, watched.held)?;
    }
    Ok(())
}

/// The turn of a mark's own value, if it is one of those that the table follows.
fn add_own(entries: &mut Vec<Entry>, watched: &Watched, mark: Mark) -> Result<(), Exhausted>
    ensures { OnOk result (entries.new.items ≡ entries.old.items ++ turn_entries watched.now.held.now mark) }
{
    if is_among(mark.subject, watched.held) {
        add_turn(entries, mark)?;
    }
    Ok(())
}

/// The entries of one mark.
fn add_mark(entries: &mut Vec<Entry>, watched: &Watched, mark: Mark) -> Result<(), Exhausted>
    ensures { OnOk result (entries.new.items ≡ entries.old.items
        ++ entries_by watched.now.sort watched.now.values.now watched.now.held.now mark) }
{
    add_watched(entries, watched, mark)?;
    add_own(entries, watched, mark)
}

/// The entries of marks.
fn add_marks(entries: &mut Vec<Entry>, watched: &Watched, marks: &[Mark]) -> Result<(), Exhausted>
    ensures { OnOk result (entries.new.items ≡ entries.old.items
        ++ flat_map (entries_by watched.now.sort watched.now.values.now watched.now.held.now) marks.now) }
{
    for mark in marks {
        add_mark(entries, watched, *mark)?;
    }
    Ok(())
}

impl ItemTable for Watched<'_> {
    type Room = ();

    ghost fits = { λ _. Unit {0} };

    ghost entries_at = { λ t n _. flat_map (entries_by t.sort t.values.now t.held.now) (marks_at t.k.now n) };

    fn add_entries(
        &self,
        _room: &mut (),
        entries: &mut Vec<Entry>,
        number: usize,
        _item: Item,
    ) -> Result<(), Exhausted> {
        add_marks(entries, self, self.k.marks(number))
    }
}
