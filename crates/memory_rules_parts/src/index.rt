//! An index of parts: the numbers of those that have a key, found without going through all.

ghost use Rattle.std.specs.Prelude.{◌≡◌, [], ◌∷◌, ◌++◌, ◌==◌, ◌<◌, ◌≤◌, ℕ, IfOk, OnOk, cond, length};
ghost use Rattle.std.specs.List.Sorted.{IsStrictlyIncreasing};
ghost use Rattle.reach_engine_marks.specs.PathPatterns.inner.Reads.{accesses_at};
ghost use Rattle.memory_rules_parts.specs.inner.Index as index;
ghost use Rattle.memory_rules_parts.specs.inner.Index.{HasRows, IsIndexOf};

use crate::key::{Key, add_keys_of_part};
use crate::part::Part;
use memory_rules_accesses::{Cell, Memory};
use sil_ast::{Exhausted, ValueId};
use std::alloc::Global;

/// How many rows there are at most for each kind of key.
pub(crate) const ROWS: usize = 1024;

/// How many kinds of keys there are. The rows of one value stand beside each other, so that there are no more than values need.
const KINDS: usize = 4;

pub(crate) fn value_row(value: ValueId) -> usize
    ensures { result ≡ index.value_row value }
{
    value.0 as usize % ROWS
}

fn cell_row(cell: Cell) -> usize
    ensures { result ≡ index.cell_row cell }
{
    match cell.field {
        None => value_row(cell.subject),
        Some(field) => (value_row(cell.subject) + field % ROWS) % ROWS,
    }
}

/// The row of a key. Some keys of one kind share a row, so that what is in it may have another key.
fn row_of(key: Key) -> usize
    ensures { result ≡ index.row_of key }
{
    match key {
        Key::Turned(v) => KINDS * value_row(v),
        Key::Named(v) => KINDS * value_row(v) + 1,
        Key::Operated(cell) => KINDS * cell_row(cell) + 2,
        Key::Written(v) => KINDS * value_row(v) + 3,
    }
}

/// Makes room for the row, with nothing in it.
fn grow(alloc: Global, rows: &mut Vec<Vec<u32>>, row: usize) -> Result<(), Exhausted>
    ensures there { OnOk result (row < length rows.new.items) }
    ensures same { OnOk result ((r : ℕ) → accesses_at rows.new.items r ≡ accesses_at rows.old.items r) }
{
    while rows.len() <= row {
        rows.push(Vec::new(alloc))?;
    }
    Ok(())
}

/// Adds the number to the row of the key.
fn add_number(
    alloc: Global,
    rows: &mut Vec<Vec<u32>>,
    key: Key,
    number: u32,
) -> Result<(), Exhausted>
    ensures { OnOk result ((r : ℕ) → accesses_at rows.new.items r ≡ accesses_at rows.old.items r ++ cond (index.row_of key == r) (number ∷ []) []) }
{
    let row = row_of(key);
    grow(alloc, rows, row)?;
    rows[row].push(number)?;
    Ok(())
}

/// Adds the number to the rows of the keys.
fn add_to_rows(
    alloc: Global,
    rows: &mut Vec<Vec<u32>>,
    keys: &[Key],
    number: u32,
) -> Result<(), Exhausted>
    ensures { OnOk result (HasRows rows.old.items rows.new.items keys.now number) }
{
    for key in keys {
        add_number(alloc, rows, *key, number)?;
    }
    Ok(())
}

/// The numbers of the parts, by rows: each is in the rows of all keys of its part.
pub(crate) fn index_of(
    alloc: Global,
    m: &Memory,
    batch: &[Part],
) -> Result<Vec<Vec<u32>>, Exhausted>
    requires { length batch.now ≤ 1024 }
    ensures { IfOk result (λ v. IsIndexOf m.now batch.now v.items) }
{
    let mut rows = Vec::new(alloc);
    for number in 0..batch.len() {
        let mut keys = Vec::new(alloc);
        add_keys_of_part(&mut keys, m, batch[number])?;
        add_to_rows(alloc, &mut rows, keys.as_slice(), number as u32)?;
    }
    Ok(rows)
}

/// What is in the row of a key.
fn row_at(rows: &[Vec<u32>], key: Key) -> &[u32]
    ensures { result.now ≡ index.row_at rows.now key }
{
    match rows.get(row_of(key)) {
        None => &[],
        Some(row) => row.as_slice(),
    }
}

/// The numbers that are in the rows of the keys, in ascending order.
pub(crate) fn numbers_at(
    alloc: Global,
    rows: &[Vec<u32>],
    keys: &[Key],
) -> Result<Vec<u32>, Exhausted>
    ensures rising { IfOk result (λ v. IsStrictlyIncreasing v.items) }
    ensures all { IfOk result (λ v. index.HasAll rows.now keys.now v.items) }
{
    let mut numbers = Vec::new(alloc);
    for key in keys {
        numbers.extend_from_slice(row_at(rows, *key))?;
    }
    numbers.sort()?;
    numbers.dedup();
    Ok(numbers)
}
