//! The table of some parts: what each item does to which of them, by their numbers.

ghost use Rattle.std.specs.Prelude.{◌≡◌, ◌++◌, ◌≤◌, length, slice_get, OnOk};
ghost use Rattle.std.specs.List.{flat_map};
ghost use Rattle.reach_engine_marks.specs.PathChecks.inner.Shared.{entry_if};
ghost use Rattle.memory_rules_accesses.specs.Accesses.{accesses_with};
ghost use Rattle.ownership_kinds_chains.specs.OwnershipMarks.Known.{facts_of, marks_at};
ghost use Rattle.memory_rules_parts.specs.inner.Batches as batches;
ghost use Rattle.memory_rules_parts.specs.inner.Batches.{IsBatch, entry_at, joint};
ghost use Rattle.memory_rules_parts.specs.inner.Index.{IsIndexOf};

use crate::batch::{Batch, Room};
use crate::concerned::may_mean;
use crate::index::numbers_at;
use crate::key::add_keys_of_access;
use crate::meaning::{at_return, means};
use memory_rules_accesses::{Access, make_accesses};
use reach_engine_marks::{Entry, ItemTable, Mark, SubjectMarks};
use sil_ast::Exhausted;
use sil_cfg::Item;

/// The entry of a number, if it has a mark.
fn add_entry(entries: &mut Vec<Entry>, number: u32, mark: Option<Mark>) -> Result<(), Exhausted>
    ensures { OnOk result (entries.new.items ≡ entries.old.items ++ entry_if number mark) }
{
    if let Some(mark) = mark {
        entries.push(Entry {
            subject: number,
            mark,
        })?;
    }
    Ok(())
}

/// What an access means to the parts, each by its number: all are asked.
fn add_of_all(entries: &mut Vec<Entry>, batch: &Batch, access: Access) -> Result<(), Exhausted>
    requires { length batch.now.parts.now ≤ 1024 }
    ensures { OnOk result (entries.new.items ≡ entries.old.items ++ joint batch.now.m.now (facts_of batch.now.k.now) batch.now.parts.now access) }
{
    for number in 0..batch.parts.len() {
        add_entry(
            entries,
            number as u32,
            means(batch.m, batch.k, batch.parts[number], access),
        )?;
    }
    Ok(())
}

/// What an access means to the part with a number.
fn means_at(batch: &Batch, number: u32, access: Access) -> Option<Mark>
    ensures { result ≡ batches.means_at batch.now.m.now (facts_of batch.now.k.now) access (slice_get batch.now.parts.now number) }
{
    match batch.parts.get(number as usize) {
        None => None,
        Some(part) => means(batch.m, batch.k, *part, access),
    }
}

/// What an access means to those parts that have these numbers.
fn add_of_each(
    entries: &mut Vec<Entry>,
    batch: &Batch,
    numbers: &[u32],
    access: Access,
) -> Result<(), Exhausted>
    ensures { OnOk result (entries.new.items ≡ entries.old.items
        ++ flat_map (entry_at batch.now.m.now (facts_of batch.now.k.now) batch.now.parts.now access) numbers.now) }
{
    for number in numbers {
        add_entry(entries, *number, means_at(batch, *number, access))?;
    }
    Ok(())
}

/// The same as of all, where `rows` is an index of the parts: those are asked that have a key of the access.
fn add_by_index(
    entries: &mut Vec<Entry>,
    batch: &Batch,
    rows: &[Vec<u32>],
    access: Access,
) -> Result<(), Exhausted>
    requires { IsIndexOf batch.now.m.now batch.now.parts.now rows.now }
    ensures { OnOk result (entries.new.items ≡ entries.old.items ++ joint batch.now.m.now (facts_of batch.now.k.now) batch.now.parts.now access) }
{
    let alloc = *entries.allocator();
    let mut keys = Vec::new(alloc);
    add_keys_of_access(&mut keys, batch.m, batch.k, access)?;
    let numbers = numbers_at(alloc, rows, keys.as_slice())?;
    add_of_each(entries, batch, numbers.as_slice(), access)
}

/// What an access means to the parts, each by its number: nothing where it has to do with no value that concerns them.
/// Where there is an index, it tells which are asked.
fn add_of_access(entries: &mut Vec<Entry>, batch: &Batch, access: Access) -> Result<(), Exhausted>
    requires { IsBatch batch.now.m.now batch.now.parts.now batch.now.concerned.now batch.now.index }
    ensures { OnOk result (entries.new.items ≡ entries.old.items ++ joint batch.now.m.now (facts_of batch.now.k.now) batch.now.parts.now access) }
{
    if !may_mean(batch.concerned, batch.m, batch.k, access) {
        return Ok(());
    }
    match &batch.index {
        None => add_of_all(entries, batch, access),
        Some(rows) => add_by_index(entries, batch, rows.as_slice(), access),
    }
}

/// What accesses mean to them.
fn add_of_accesses(
    entries: &mut Vec<Entry>,
    batch: &Batch,
    accesses: &[Access],
) -> Result<(), Exhausted>
    requires { IsBatch batch.now.m.now batch.now.parts.now batch.now.concerned.now batch.now.index }
    ensures { OnOk result (entries.new.items ≡ entries.old.items
        ++ flat_map (joint batch.now.m.now (facts_of batch.now.k.now) batch.now.parts.now) accesses.now) }
{
    for access in accesses {
        add_of_access(entries, batch, *access)?;
    }
    Ok(())
}

impl ItemTable for Batch<'_> {
    type Room = Room;

    ghost fits = { λ b. IsBatch b.m.now b.parts.now b.concerned.now b.index };

    ghost entries_at = { λ b n item. flat_map (joint b.m.now (facts_of b.k.now) b.parts.now) (accesses_with b.m.now (marks_at b.k.now n) b.f.now item) };

    fn add_entries(
        &self,
        room: &mut Room,
        entries: &mut Vec<Entry>,
        number: usize,
        item: Item,
    ) -> Result<(), Exhausted> {
        make_accesses(
            &mut room.accesses,
            self.f,
            item,
            self.k.marks(number),
            self.m,
            &mut room.taken,
            &mut room.defined,
        )?;
        add_of_accesses(entries, self, room.accesses.as_slice())
    }
}

impl SubjectMarks for Batch<'_> {
    ghost mark_of = { λ b n. batches.return_mark b.parts.now n };

    fn shared_mark(&self, subject: u32) -> Option<Mark> {
        match self.parts.get(subject as usize) {
            None => None,
            Some(part) => at_return(*part),
        }
    }
}
