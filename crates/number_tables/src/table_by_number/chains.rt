//! Look-ups and changes in chains.

ghost use Rattle.std.specs.Prelude.{◌≡◌, ◌+◌, ◌<◌, ◌≤◌, ◌^◌, ℕ, bit_and, cond, eqb, length};
ghost use Rattle.number_tables.specs.TableByNumber.inner.Chains.{IsAbsent, IsInChain, IsTaken, TOP};
ghost use Rattle.number_tables.specs.TableByNumber.inner.Entries.{IsTable, key_at, next_at};

use crate::table_by_number::entry::Entry;

/// The head of the chain of a key.
#[inline]
fn head_of(mask: u64, key: u64) -> usize
    requires { mask < 2 ^ 32 }
    ensures head { result ≡ bit_and mask key + 1 }
    ensures within { result ≤ mask + 1 }
{
    (mask & key) as usize + 1
}

/// The entry of the slot that has a key, where one has it, or else 0.
#[inline]
pub(crate) fn find(entries: &[Entry], mask: u64, key: u64) -> u32
    requires table { IsTable mask entries.now }
    requires some { 1 ≤ key }
    ensures found { 1 ≤ result → (mask + 1 < result) × (key_at entries.now result ≡ key) }
    ensures absent { result ≡ 0 → IsAbsent mask (key_at entries.now) key }
{
    let mut at = entries[head_of(mask, key)].next;
    'chain: loop {
        let entry = entries[at as usize];
        if entry.key == key {
            return at;
        }
        if entry.key < key {
            return 0;
        }
        at = entry.next;
    }
}

/// The entry of the slot that has a key.
#[inline]
pub(crate) fn find_present(entries: &[Entry], mask: u64, key: u64) -> u32
    requires table { IsTable mask entries.now }
    requires some { 1 ≤ key }
    requires present { IsAbsent mask (key_at entries.now) key → ⊥ }
    ensures slot { mask + 1 < result }
    ensures key { key_at entries.now result ≡ key }
{
    let mut at = entries[head_of(mask, key)].next;
    'chain: loop {
        let entry = entries[at as usize];
        if entry.key == key {
            return at;
        }
        at = entry.next;
    }
}

/// The last entry of a key's chain with a greater key.
fn above(entries: &[Entry], mask: u64, key: u64) -> usize
    requires table { IsTable mask entries.now }
    requires low { key < TOP }
    ensures chain { IsInChain mask (bit_and mask) (key_at entries.now) (bit_and mask key) result }
    ensures greater { key < key_at entries.now result }
    ensures last { key_at entries.now (next_at entries.now result) ≤ key }
{
    let mut at = head_of(mask, key);
    'chain: loop {
        let next = entries[at].next as usize;
        if entries[next].key <= key {
            return at;
        }
        at = next;
    }
}

/// Gives a free slot a key.
pub(crate) fn insert(entries: &mut [Entry], mask: u64, slot: usize, key: u64)
    requires table { IsTable mask entries.old }
    requires some { 1 ≤ key }
    requires low { key < TOP }
    requires absent { IsAbsent mask (key_at entries.old) key }
    requires behind { mask + 1 < slot }
    requires there { slot < length entries.old }
    requires free { key_at entries.old slot ≡ 0 }
    ensures table { IsTable mask entries.new }
    ensures keys { (e : ℕ) → key_at entries.new e ≡ cond (eqb e slot) key (key_at entries.old e) }
{
    let at = above(entries, mask, key);
    let next = entries[at].next;
    entries[slot] = Entry { key, next };
    let link = &mut entries[at];
    link.next = slot as u32;
}

/// Takes the key of a slot away.
pub(crate) fn remove(entries: &mut [Entry], mask: u64, slot: usize)
    requires table { IsTable mask entries.old }
    requires taken { IsTaken mask (key_at entries.old) slot }
    ensures table { IsTable mask entries.new }
    ensures keys { (e : ℕ) → key_at entries.new e ≡ cond (eqb e slot) 0 (key_at entries.old e) }
{
    let Entry { key, next } = entries[slot];
    let at = above(entries, mask, key);
    let link = &mut entries[at];
    link.next = next;
    let taken = &mut entries[slot];
    taken.key = 0;
}
