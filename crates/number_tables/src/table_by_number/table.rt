//! The table.

ghost use Rattle.std.specs.Prelude.{◌≡◌, ◌+◌, ◌<◌, ◌^◌, IfOk, OnErr, OnOk, length, true, is_some};
ghost use Rattle.number_tables.specs.TableByNumber.Numbers.{AreApart, IsFree, no_numbers, slot_in, with_next, without};

use crate::table_by_number::chains::{find, find_present, insert, remove};
use crate::table_by_number::entry::{Entry, NO_ENTRY};
use crate::table_by_number::widen::{empty_table, widened};
use sil_ast::Exhausted;
use std::alloc::Global;
use std::marker::Model;

/// A new table has eight chains.
const FIRST_MASK: u64 = 7;

/// The slots of numbers that are given in order, each until it is taken out.
#[derive(Drop)]
pub struct NumberTable {
    /// The end of all chains, the heads of the chains, and the slots.
    entries: Vec<Entry>,
    /// One less than the number of chains.
    mask: u64,
    /// How many numbers were given.
    given: u64,
}

impl Model for NumberTable {
    ghost use Rattle.number_tables.specs.TableByNumber.Numbers.{Numbers};

    ghost Value = { Numbers };

    ghost use Rattle.std.specs.Prelude.{◌≤◌, ◌^◌};
    ghost use Rattle.number_tables.specs.TableByNumber.inner.Entries.{AreGiven, IsTable, numbers_in};

    ghost view = { λ t. numbers_in t.mask t.entries.items t.given };

    ghost invariant = { λ t. IsTable t.mask t.entries.items × AreGiven t.mask t.entries.items t.given × (t.given ≤ 2 ^ 63) };
}

impl NumberTable {
    /// No numbers and no slots.
    pub fn new(alloc: Global) -> Result<NumberTable, Exhausted>
        ensures { IfOk result (λ t. t ≡ no_numbers) }
    {
        Ok(NumberTable {
            entries: empty_table(alloc, FIRST_MASK, 0)?,
            mask: FIRST_MASK,
            given: 0,
        })
    }

    /// How many slots there are.
    #[inline]
    pub fn slots(&self) -> usize
        ensures { result ≡ self.now.slots }
    {
        self.entries.len() - self.mask as usize - 2
    }

    /// How many numbers were given.
    #[inline]
    pub fn given(&self) -> u64
        ensures { result ≡ length self.now.places }
    {
        self.given
    }

    /// The slot that has a number, if one has it.
    #[inline]
    pub fn find(&self, number: u64) -> Option<usize>
        ensures { result ≡ slot_in self.now number }
    {
        if number >= self.given {
            return None;
        }
        let entry = find(self.entries.as_slice(), self.mask, number + 1);
        if entry == 0 {
            return None;
        }
        Some(entry as usize - self.mask as usize - 2)
    }

    /// The slot that has a number which wasn't taken out.
    #[inline]
    pub fn slot_of(&self, number: u64) -> usize
        requires { is_some (slot_in self.now number) ≡ true }
        ensures slot { slot_in self.now number ≡ Some result }
        ensures there { result < self.now.slots }
        ensures apart { AreApart self.now }
    {
        let entry = find_present(self.entries.as_slice(), self.mask, number + 1);
        entry as usize - self.mask as usize - 2
    }

    /// One slot more, which has no number.
    pub fn add_slot(&mut self) -> Result<(), Exhausted>
        ensures ok { OnOk result ((self.new.slots ≡ self.old.slots + 1) × (self.new.places ≡ self.old.places)) }
        ensures err { OnErr result (self.new ≡ self.old) }
    {
        if self.slots() as u64 > self.mask {
            self.widen()?;
        }
        if self.entries.len() > u32::MAX as usize {
            return Err(Exhausted);
        }
        self.entries.push(NO_ENTRY)?;
        Ok(())
    }

    /// Twice as many chains.
    #[inline(never)]
    fn widen(&mut self) -> Result<(), Exhausted>
        ensures { self.new ≡ self.old }
    {
        let wide = 2 * self.mask + 1;
        if wide + self.slots() as u64 + 2 > u32::MAX as u64 {
            return Err(Exhausted);
        }
        self.entries = widened(*self.entries.allocator(), &self.entries, self.mask, wide)?;
        self.mask = wide;
        Ok(())
    }

    /// Gives the next number to a slot that has none.
    #[inline]
    pub fn give(&mut self, slot: usize)
        requires there { slot < self.old.slots }
        requires free { IsFree self.old slot }
        requires few { length self.old.places < 2 ^ 63 }
        ensures { self.new ≡ with_next self.old slot }
    {
        insert(
            self.entries.as_mut_slice(),
            self.mask,
            slot + self.mask as usize + 2,
            self.given + 1,
        );
        self.given += 1;
    }

    /// Takes a number out.
    #[inline]
    pub fn take_out(&mut self, number: u64)
        requires { is_some (slot_in self.old number) ≡ true }
        ensures { self.new ≡ without self.old number }
    {
        let entry = find_present(self.entries.as_slice(), self.mask, number + 1);
        remove(self.entries.as_mut_slice(), self.mask, entry as usize);
    }
}
