//! A list that is built from its end to its front, as the second pass of the reader meets the parts of a text.

ghost use Rattle.std.specs.Prelude.{◌≡◌, [], ◌∷◌, ◌++◌, ◌<◌, ◌≤◌, ◌↔◌, length, slice_get, IsNone, OnOk, Some};
ghost use Rattle.std.specs.Option.{option_copied};

use sil_ast::{Exhausted, List};
use std::alloc::Global;
use std::marker::Model;

/// For how many elements a list may have room that it doesn't need: to give it back takes longer than to build most lists.
const MOST_UNUSED: usize = 4;

/// A list that grows at its front. To a contract it is the list of its elements, front first.
#[derive(Drop)]
pub struct Prepended<T> {
    /// The last element comes first.
    backwards: Vec<T>,
}

impl<T> Model for Prepended<T> {
    ghost use Rattle.std.specs.Prelude.{List, reverse};
    ghost use Rattle.std.specs.Coded.{coded_list};

    ghost Value = { List T };

    ghost coded = { coded_list T.code };

    ghost view = { λ list. reverse list.backwards.items };
}

impl<T> Prepended<T> {
    /// The empty list, which takes no memory.
    pub fn new(alloc: Global) -> Prepended<T>
        ensures { result ≡ [] }
    {
        Prepended {
            backwards: Vec::new(alloc),
        }
    }

    pub fn len(&self) -> usize
        ensures { result ≡ length self.now }
    {
        self.backwards.len()
    }

    /// The element at `i`, counted from 0 at the front.
    pub fn get(&self, i: usize) -> Option<&T>
        ensures value { option_copied result ≡ slice_get self.now i }
        ensures none { IsNone result ↔ (length self.now ≤ i) }
    {
        if i < self.backwards.len() {
            self.backwards.get(self.backwards.len() - 1 - i)
        } else {
            None
        }
    }

    /// The element at `i`, counted from 0 at the front.
    pub fn at(&self, i: usize) -> &T
        requires { i < length self.now }
        ensures { slice_get self.now i ≡ Some result.now }
    {
        &self.backwards[self.backwards.len() - 1 - i]
    }

    /// Takes the first element away.
    pub fn pop_front(&mut self) -> T
        requires { 0 < length self.old }
        ensures { self.old ≡ result ∷ self.new }
    {
        self.backwards.pop().unwrap()
    }

    /// The elements in order. Room for more than a few others is given back.
    pub fn into_list(self) -> List<T>
        ensures { result ≡ self }
    {
        let mut whole = self;
        if whole.backwards.capacity() > whole.backwards.len() + MOST_UNUSED {
            whole.backwards.shrink_to_fit();
        }
        whole.into_roomy_list()
    }

    /// The elements in order, with the room that is left.
    pub fn into_roomy_list(self) -> List<T>
        ensures { result ≡ self }
    {
        let Prepended { mut backwards } = self;
        backwards.reverse();
        List::from_vec(backwards)
    }
}

impl<T: Drop> Prepended<T> {
    /// Puts `item` before the others.
    pub fn push_front(&mut self, item: T) -> Result<(), Exhausted>
        ensures { OnOk result (self.new ≡ item ∷ self.old) }
    {
        self.backwards.push(item)?;
        Ok(())
    }

    /// Puts `item` before the others. Where it is the first, there is room for `count` at once.
    pub fn push_front_of(&mut self, count: usize, item: T) -> Result<(), Exhausted>
        ensures { OnOk result (self.new ≡ item ∷ self.old) }
    {
        if self.backwards.is_empty() {
            self.backwards.reserve_exact(count)?;
        }
        self.push_front(item)
    }

    /// Puts `item` behind the others, which are moved.
    pub fn push_back(&mut self, item: T) -> Result<(), Exhausted>
        ensures { OnOk result (self.new ≡ self.old ++ item ∷ []) }
    {
        self.backwards.insert(0, item)?;
        Ok(())
    }
}
