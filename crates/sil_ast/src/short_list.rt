//! A list of few elements that contracts see as its elements.

ghost use Rattle.std.specs.Borrow.{Array, Lends, sem};
ghost use Rattle.std.specs.List.{refill};
ghost use Rattle.std.specs.Prelude.{◌≡◌, [], ◌∷◌, ◌++◌, ◌≤◌, length, slice_get, ◌↔◌, IsTrue, IsNone, OnOk, OnErr};
ghost use Rattle.std.specs.Option.{option_copied};

use crate::exhausted::Exhausted;
use crate::try_clone::TryClone;
use smallvec::SmallVec;
use std::alloc::Global;
use std::default::MadeWith;
use std::marker::Model;

/// A growing list. Up to `N` elements stand in the value itself and take no memory of their own. To a contract it is the
/// list of its elements.
#[derive(Drop)]
pub struct ShortList<T, const N: usize> {
    items: SmallVec<T, N>,
}

impl<T, const N: usize> Model for ShortList<T, N> {
    ghost use Rattle.std.specs.Prelude.{List};
    ghost use Rattle.std.specs.Coded.{coded_list};

    ghost Value = { List T };

    ghost coded = { coded_list T.code };

    ghost view = { λ list. list.items.items };
}

impl<T: MadeWith<Global> + Drop, const N: usize> ShortList<T, N> {
    /// The empty list, which takes no memory of its own.
    pub fn new(alloc: Global) -> ShortList<T, N>
        ensures { result ≡ [] }
    {
        ShortList {
            items: SmallVec::new(alloc),
        }
    }

    /// Adds `item` at the end. Where there is no memory for it, the item is dropped.
    pub fn push(&mut self, item: T) -> Result<(), Exhausted>
        ensures ok { OnOk result (self.new ≡ self.old ++ item ∷ []) }
        ensures err { OnErr result (self.new ≡ self.old) }
    {
        self.items.push(item)?;
        Ok(())
    }
}

impl<T, const N: usize> ShortList<T, N> {
    ghost use Rattle.sil_ast.specs.contracts.short_list.ShortList.{the_row};

    pub fn len(&self) -> usize
        ensures { result ≡ length self.now }
    {
        self.items.len()
    }

    pub fn is_empty(&self) -> bool
        ensures { IsTrue result ↔ (self.now ≡ []) }
    {
        self.items.is_empty()
    }

    /// The element at `i`, counted from 0.
    pub fn get(&self, i: usize) -> Option<&T>
        ensures value { option_copied result ≡ slice_get self.now i }
        ensures none { IsNone result ↔ (length self.now ≤ i) }
    {
        self.as_slice().get(i)
    }

    pub fn as_slice(&self) -> &[T]
        ensures { result.now ≡ self.now }
    {
        self.items.as_slice()
    }

    /// The elements, for writing.
    pub fn as_mut_slice(&mut self) -> &mut [T]
        ensures* writes_back { sem 𝓛 (Lends (the_row T.row N.row) (Array T.row 0) self.entry result (refill (length self.old) self.old)) }
        ensures value { result.now ≡ self.old }
    {
        self.items.as_mut_slice()
    }
}

impl<T: TryClone + MadeWith<Global> + Drop, const N: usize> TryClone for ShortList<T, N> {
    fn try_clone(&self, alloc: Global) -> Result<ShortList<T, N>, Exhausted> {
        let mut copies = ShortList::new(alloc);
        for item in self.as_slice() {
            copies.push(item.try_clone(alloc)?)?;
        }
        Ok(copies)
    }
}
