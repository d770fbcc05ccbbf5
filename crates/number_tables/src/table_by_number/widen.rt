//! Tables made anew, with more chains.

ghost use Rattle.std.specs.Prelude.{◌≡◌, ◌<◌, ◌≤◌, ◌+◌, ◌++◌, ◌^◌, IfOk, OnOk, ℕ, length, replicate};
ghost use Rattle.number_tables.specs.TableByNumber.inner.Entries.{IsTable, empty_head, key_at, no_entry};

use crate::table_by_number::chains::insert;
use crate::table_by_number::entry::{EMPTY_HEAD, Entry, NO_ENTRY};
use sil_ast::Exhausted;
use std::alloc::Global;

/// Empty chains and free slots.
pub(crate) fn empty_table(alloc: Global, mask: u64, slots: usize) -> Result<Vec<Entry>, Exhausted>
    requires { mask + 2 + slots ≤ 2 ^ 32 }
    ensures table { IfOk result (λ entries. IsTable mask entries.items) }
    ensures slots { IfOk result (λ entries. length entries.items ≡ mask + 2 + slots) }
    ensures free { IfOk result (λ entries. (s : ℕ) → mask + 1 < s → key_at entries.items s ≡ 0) }
{
    let mut entries = Vec::with_capacity(alloc, mask as usize + 2 + slots + slots)?;
    entries.push(NO_ENTRY)?;
    add_heads(&mut entries, mask + 1)?;
    add_free(&mut entries, slots)?;
    Ok(entries)
}

fn add_heads(entries: &mut Vec<Entry>, count: u64) -> Result<(), Exhausted>
    ensures { OnOk result (entries.new.items ≡ entries.old.items ++ replicate count empty_head) }
{
    'heads: for _ in 0..count {
        entries.push(EMPTY_HEAD)?;
    }
    Ok(())
}

fn add_free(entries: &mut Vec<Entry>, count: usize) -> Result<(), Exhausted>
    ensures { OnOk result (entries.new.items ≡ entries.old.items ++ replicate count no_entry) }
{
    'slots: for _ in 0..count {
        entries.push(NO_ENTRY)?;
    }
    Ok(())
}

/// The same slots with their keys, in other chains.
pub(crate) fn widened(
    alloc: Global,
    entries: &[Entry],
    mask: u64,
    wide: u64,
) -> Result<Vec<Entry>, Exhausted>
    requires table { IsTable mask entries.now }
    requires few { wide + length entries.now ≤ 2 ^ 32 + mask }
    ensures table { IfOk result (λ wider. IsTable wide wider.items) }
    ensures slots { IfOk result (λ wider. length wider.items + mask ≡ length entries.now + wide) }
    ensures keys { IfOk result (λ wider. (s : ℕ) → key_at wider.items (wide + 2 + s) ≡ key_at entries.now (mask + 2 + s)) }
{
    let from = mask as usize + 2;
    let behind = wide as usize + 2;
    let mut wider = empty_table(alloc, wide, entries.len() - from)?;
    'slots: for s in 0..entries.len() - from {
        let key = entries[from + s].key;
        if key != 0 {
            insert(&mut wider, wide, behind + s, key);
        }
    }
    Ok(wider)
}
