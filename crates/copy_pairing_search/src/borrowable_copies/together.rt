//! All copies of a function searched together: whether, on some walk, one is held where a base of what it copies ends.

ghost use Rattle.std.specs.Prelude.{◌≡◌, ◌<◌, ◌≤◌, ◌^◌, ◌++◌, ℕ, length, map, IfNone, IfOk, IfSome, IsSome, OnOk, Option, Some, None};
ghost use Rattle.std.specs.List.{flat_map};
ghost use Rattle.sil_ast.specs.declared.place.PointId.{PointId};
ghost use Rattle.sil_ast.specs.declared.place.ValueId.{ValueId};
ghost use Rattle.sil_cfg.specs.declared.item.Item.TheVariants.{Inst};
ghost use Rattle.sil_cfg.specs.inner.Build.{IsGraphOf};
ghost use Rattle.reach_engine_marks.specs.PathChecks.inner.Shared.{entry_if, shared_from};
ghost use Rattle.ownership_kinds_chains.specs.declared.ownership_chains.facts.Facts.{Facts};
ghost use Rattle.ownership_kinds_chains.specs.OwnershipMarks.Known.{AreKindsBy, marks_at};
ghost use Rattle.copy_pairing_model.specs.Copies.{IsCopy};
ghost use Rattle.copy_pairing_search.specs.BorrowableCopies.inner.Together as together;
ghost use Rattle.copy_pairing_search.specs.BorrowableCopies.inner.Together.{AreCopies, AreFound, entries_of, off_if, off_of, operand_in, turn_of, with_copied};

use crate::borrowable_copies::copies::{Copied, copy_at};
use crate::borrowable_copies::watched::{add_turn, is_among, is_sort};
use ownership_kinds_chains::{Kinds, Mark, MarkSort};
use reach_engine_marks::{Entry, ItemTable, entries_by_item, mark_broken};
use sil_ast::{Exhausted, Function, ValueId};
use sil_cfg::{Graph, Item};
use sil_rules::Rule;
use std::alloc::Global;

/// The most copies that are searched together: those of the first values.
const MOST: usize = 1024;

/// How many of so many values are asked.
pub(crate) fn asked_of(values: usize) -> usize
    ensures most { result ≤ 1024 }
    ensures few { result ≤ values }
    ensures all { (c : ℕ) → c < 1024 → c < values → c < result }
{
    if values < MOST { values } else { MOST }
}

/// What the copy that makes a value copies, if one does.
pub(crate) fn operand_of(copied: &[Option<ValueId>], value: ValueId) -> Option<ValueId>
    ensures { result ≡ operand_in copied.now value.0 }
{
    match copied.get(value.0 as usize) {
        None => None,
        Some(operand) => *operand,
    }
}

/// What a copy of the operand has where a value ends: it isn't held, if the value is a base of the operand.
fn off_for(k: &Kinds, ended: ValueId, operand: Option<ValueId>) -> Option<reach_engine_marks::Mark>
    ensures { result ≡ off_if k.now ended operand }
{
    match operand {
        None => None,
        Some(operand) => {
            if is_among(ended, k.bases(operand)) {
                Some(reach_engine_marks::Mark::needs_off(Rule::ConsumedWhileBorrowed))
            } else {
                None
            }
        }
    }
}

/// Adds the entry of a copy, if it has a mark.
fn push_off(
    entries: &mut Vec<Entry>,
    copy: usize,
    mark: Option<reach_engine_marks::Mark>,
) -> Result<(), Exhausted>
    requires { copy < 2 ^ 32 }
    ensures { OnOk result (entries.new.items ≡ entries.old.items ++ entry_if copy mark) }
{
    if let Some(mark) = mark {
        entries.push(Entry {
            subject: copy as u32,
            mark,
        })?;
    }
    Ok(())
}

/// No copy of a value of which the ended one is a base is held.
fn add_offs(
    entries: &mut Vec<Entry>,
    k: &Kinds,
    copied: &[Option<ValueId>],
    ended: ValueId,
) -> Result<(), Exhausted>
    requires { length copied.now ≤ 2 ^ 32 }
    ensures { OnOk result (entries.new.items ≡ entries.old.items ++ shared_from 0 (map (off_if k.now ended) copied.now)) }
{
    for copy in 0..copied.len() {
        let operand = operand_of(copied, ValueId(copy as u32));
        push_off(entries, copy, off_for(k, ended, operand))?;
    }
    Ok(())
}

/// The copies of a function, by value what each copies, and what is known of the function's values.
#[derive(Drop)]
struct Together<'a> {
    k: &'a Kinds,
    copied: &'a [Option<ValueId>],
}

/// Where a value ends, no copy is held of which it is a base.
fn add_ended(entries: &mut Vec<Entry>, table: &Together, mark: Mark) -> Result<(), Exhausted>
    requires { length table.now.copied.now ≤ 2 ^ 32 }
    ensures { OnOk result (entries.new.items ≡ entries.old.items ++ off_of table.now.k.now table.now.copied.now mark) }
{
    if is_sort(MarkSort::End, mark.sort) {
        add_offs(entries, table.k, table.copied, mark.subject)?;
    }
    Ok(())
}

/// The turn of the mark's own value, if a copy makes it.
fn add_own(entries: &mut Vec<Entry>, table: &Together, mark: Mark) -> Result<(), Exhausted>
    ensures { OnOk result (entries.new.items ≡ entries.old.items ++ turn_of table.now.copied.now mark) }
{
    if operand_of(table.copied, mark.subject).is_some() {
        add_turn(entries, mark)?;
    }
    Ok(())
}

/// The entries of one mark.
fn add_mark(entries: &mut Vec<Entry>, table: &Together, mark: Mark) -> Result<(), Exhausted>
    requires { length table.now.copied.now ≤ 2 ^ 32 }
    ensures { OnOk result (entries.new.items ≡ entries.old.items ++ entries_of table.now.k.now table.now.copied.now mark) }
{
    add_ended(entries, table, mark)?;
    add_own(entries, table, mark)
}

/// The entries of marks.
fn add_marks(entries: &mut Vec<Entry>, table: &Together, marks: &[Mark]) -> Result<(), Exhausted>
    requires { length table.now.copied.now ≤ 2 ^ 32 }
    ensures { OnOk result (entries.new.items ≡ entries.old.items ++ flat_map (entries_of table.now.k.now table.now.copied.now) marks.now) }
{
    for mark in marks {
        add_mark(entries, table, *mark)?;
    }
    Ok(())
}

impl ItemTable for Together<'_> {
    type Room = ();

    ghost fits = { λ t. length t.copied.now ≤ 2 ^ 32 };

    ghost entries_at = { λ t n _. flat_map (entries_of t.k.now t.copied.now) (marks_at t.k.now n) };

    fn add_entries(
        &self,
        _room: &mut (),
        entries: &mut Vec<Entry>,
        number: usize,
        _item: Item,
    ) -> Result<(), Exhausted> {
        add_marks(entries, self, self.k.marks(number))
    }
}

/// The copy that the item is, if it is one.
fn copy_of(f: &Function, item: Item) -> Option<Copied>
    ensures some { IfSome result (λ x. (p : PointId) × IsCopy f.now p x.value x.operand) }
    ensures none { IfNone result ((p : PointId) (c w : ValueId) → item ≡ Inst p → ¬ IsCopy f.now p c w) }
    ensures own { IfSome result (λ x. (p : PointId) (c w : ValueId) → item ≡ Inst p → IsCopy f.now p c w → x.value ≡ c) }
{
    match item {
        Item::Inst(p) => copy_at(f, p),
        _ => None,
    }
}

/// Notes what the item copies, if it is a copy.
fn note_copied(copied: &mut [Option<ValueId>], copy: Option<Copied>)
    ensures { copied.new ≡ with_copied copy copied.old }
{
    let Some(copy) = copy else {
        return;
    };
    let place = copy.value.0 as usize;
    if place < copied.len() {
        copied[place] = Some(copy.operand);
    }
}

/// By value what the copy that makes it copies, if one does.
pub(crate) fn copied_values(
    alloc: Global,
    f: &Function,
    g: &Graph,
    k: &Kinds,
) -> Result<Vec<Option<ValueId>>, Exhausted>
    requires graph { IsGraphOf g.now f.now }
    ensures size { IfOk result (λ v. length v.items ≡ length k.now.table) }
    ensures copies { IfOk result (λ v. AreCopies f.now v.items) }
    ensures told { IfOk result (λ v. (p : PointId) (c w : ValueId) → IsCopy f.now p c w → c.0 < length k.now.table → IsSome (operand_in v.items c.0)) }
{
    let mut copied = vec![in alloc; None; k.values()]?;
    for i in 0..g.items() {
        note_copied(copied.as_mut_slice(), copy_of(f, g.item(i)));
    }
    Ok(copied)
}

/// Of each copy whether, on some walk, it is held where a base of what it copies ends. The first values are asked alone, 1,024 of them.
pub(crate) fn held_at_ends(
    alloc: Global,
    f: &Function,
    g: &Graph,
    k: &Kinds,
    copied: &[Option<ValueId>],
) -> Result<Vec<bool>, Exhausted>
    requires graph { IsGraphOf g.now f.now }
    requires size { length copied.now ≡ length k.now.table }
    ensures size { IfOk result (λ v. length v.items ≡ length copied.now) }
    ensures found { IfOk result (λ v. (count : ℕ) (facts : ValueId → Option Facts) → AreKindsBy count facts f.now g.now k.now →
        AreFound facts f.now copied.now v.items) }
{
    let _values = k.values();
    let _blocks = g.blocks();
    let table = Together { k, copied };
    let entries = entries_by_item(alloc, &table, &mut (), g)?;
    let mut held = vec![in alloc; false; copied.len()]?;
    let count = asked_of(copied.len());
    mark_broken(alloc, g, &entries, 0, count, held.as_mut_slice())?;
    Ok(held)
}
