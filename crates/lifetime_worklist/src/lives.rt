//! The table of rules 401 to 404: what each item does to which Owned value.

ghost use Rattle.std.specs.Prelude.{◌≡◌, ◌++◌, OnOk};
ghost use Rattle.std.specs.List.{flat_map};
ghost use Rattle.ownership_kinds_chains.specs.OwnershipChains.Facts as facts;
ghost use Rattle.ownership_kinds_chains.specs.OwnershipMarks.Known.{facts_of, marks_at};
ghost use Rattle.lifetime_worklist.specs.Lives as lives;
ghost use Rattle.lifetime_worklist.specs.Lives.{lives_by};

use ownership_kinds_chains::{Kinds, Mark, MarkSort};
use reach_engine_marks::{Entry, ItemTable, SubjectMarks};
use sil_ast::{Exhausted, ValueId};
use sil_cfg::Item;
use sil_rules::Rule;
use sil_types_declarations::Kind;

fn is_owned(kind: Kind) -> bool
    ensures { result ≡ facts.is_owned kind }
{
    matches!(kind, Kind::Owned)
}

/// A use and an end need the value alive, and a begin needs it not alive.
fn turned_by(sort: MarkSort) -> reach_engine_marks::Mark
    ensures { result ≡ lives.turned_by sort }
{
    match sort {
        MarkSort::Use => reach_engine_marks::Mark::needs_on(Rule::UseAfterConsume),
        MarkSort::End => reach_engine_marks::Mark::needs_on_turns_off(Rule::DoubleConsume),
        MarkSort::Begin => reach_engine_marks::Mark::needs_off_turns_on(Rule::Overwritten),
    }
}

/// The marks of Owned values.
fn add_marks(entries: &mut Vec<Entry>, k: &Kinds, marks: &[Mark]) -> Result<(), Exhausted>
    ensures { OnOk result (entries.new.items ≡ entries.old.items ++ flat_map (lives_by (facts_of k.now)) marks.now) }
{
    for mark in marks {
        if is_owned(k.kind(mark.subject)) {
            entries.push(Entry {
                subject: mark.subject.0,
                mark: turned_by(mark.sort),
            })?;
        }
    }
    Ok(())
}

/// The lives of the Owned values, by the marks of each item. A `return` has for each of them the mark that it is not alive.
#[derive(Drop)]
pub(crate) struct Lives<'k> {
    pub k: &'k Kinds,
}

impl ItemTable for Lives<'_> {
    type Room = ();

    ghost fits = { λ _. Unit {0} };

    ghost entries_at = { λ t n _. flat_map (lives_by (facts_of t.k.now)) (marks_at t.k.now n) };

    fn add_entries(
        &self,
        _room: &mut (),
        entries: &mut Vec<Entry>,
        number: usize,
        _item: Item,
    ) -> Result<(), Exhausted> {
        add_marks(entries, self.k, self.k.marks(number))
    }
}

impl SubjectMarks for Lives<'_> {
    ghost mark_of = { λ t n. lives.left_mark (facts_of t.k.now) n };

    fn shared_mark(&self, subject: u32) -> Option<reach_engine_marks::Mark> {
        if is_owned(self.k.kind(ValueId(subject))) {
            Some(reach_engine_marks::Mark::needs_off(Rule::Leak))
        } else {
            None
        }
    }
}
