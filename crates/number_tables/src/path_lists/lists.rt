//! A list of elements for each item, by the item's number.

ghost use Rattle.std.specs.Prelude.{◌≡◌, ◌<◌, ◌≤◌, [], ◌∷◌, ◌++◌, length, slice_index_or, IfOk, OnOk, OnErr};
ghost use Rattle.number_tables.specs.PathLists.inner.Lists.{AreEnds, list_at, lists_of};

use sil_ast::Exhausted;
use std::alloc::Global;
use std::marker::Model;

/// What each item of a graph has: a list of elements for each, by the item's number, in one piece of memory.
/// To a contract it is the list of these lists.
#[derive(Drop)]
pub struct ItemLists<T> {
    /// Those of each item behind those of the item before.
    elements: Vec<T>,
    /// Where those of each item end.
    ends: Vec<usize>,
}

impl<T> Model for ItemLists<T> {
    ghost use Rattle.std.specs.Prelude.{List, length};
    ghost use Rattle.std.specs.Coded.{coded_list};
    ghost use Rattle.number_tables.specs.PathLists.inner.Lists.{lists_of, AreEnds};

    ghost Value = { List (List T) };

    ghost coded = { coded_list (coded_list T.code) };

    ghost view = { λ lists. lists_of lists.elements.items lists.ends.items };

    ghost invariant = { λ lists. AreEnds 0 lists.ends.items (length lists.elements.items) };
}

impl<T> ItemLists<T> {
    /// No lists, with memory for `count` ones of one element each.
    pub fn with_capacity(alloc: Global, count: usize) -> Result<ItemLists<T>, Exhausted>
        ensures { IfOk result (λ lists. lists ≡ []) }
    {
        let ends = Vec::with_capacity(alloc, count)?;
        let elements = Vec::with_capacity(alloc, count)?;
        Ok(ItemLists { elements, ends })
    }

    /// How many lists there are.
    #[inline]
    pub fn len(&self) -> usize
        ensures { result ≡ length self.now }
    {
        self.ends.len()
    }

    /// The list of the item with this number. A number that is no item's has none.
    #[inline]
    pub fn at(&self, i: usize) -> &[T]
        ensures { result.now ≡ list_at self.now i }
    {
        list_in(&self.elements, &self.ends, i)
    }
}

impl<T: Copy> ItemLists<T> {
    /// Adds a list behind the others.
    pub fn push(&mut self, list: &[T]) -> Result<(), Exhausted>
        ensures ok { OnOk result (self.new ≡ self.old ++ list.now ∷ []) }
        ensures err { OnErr result (self.new ≡ self.old) }
    {
        let before = self.elements.len();
        append(&mut self.elements, list)?;
        match self.ends.push(self.elements.len()) {
            Ok(()) => Ok(()),
            Err(_) => {
                self.elements.truncate(before);
                Err(Exhausted)
            }
        }
    }
}

/// Puts elements behind others. Most lists have one element or none, and are worth no call of the library.
#[inline]
fn append<T: Copy>(elements: &mut Vec<T>, list: &[T]) -> Result<(), Exhausted>
    ensures ok { OnOk result (elements.new.items ≡ elements.old.items ++ list.now) }
    ensures err { OnErr result (elements.new.items ≡ elements.old.items) }
{
    match list {
        [] => {}
        [one] => elements.push(*one)?,
        many => elements.extend_from_slice(many)?,
    }
    Ok(())
}

/// Where the list of the item begins: at the end of the one before.
#[inline]
fn start_of(ends: &[usize], i: usize) -> usize
    requires { i < length ends.now }
    ensures { result ≡ slice_index_or (0 ∷ ends.now) i 0 }
{
    if i == 0 { 0 } else { ends[i - 1] }
}

/// Where the list of the item begins and ends, if there are `count` elements.
#[inline]
fn range_of(ends: &[usize], count: usize, i: usize) -> (usize, usize)
    requires ends { AreEnds 0 ends.now count }
    requires item { i < length ends.now }
    ensures start { result.0 ≡ slice_index_or (0 ∷ ends.now) i 0 }
    ensures end { result.1 ≡ slice_index_or ends.now i 0 }
    ensures rises { result.0 ≤ result.1 }
    ensures within { result.1 ≤ count }
{
    (start_of(ends, i), ends[i])
}

/// The list of the item, if there is one.
#[inline]
fn list_in<'a, T>(elements: &'a [T], ends: &[usize], i: usize) -> &'a [T]
    requires { AreEnds 0 ends.now (length elements.now) }
    ensures { result.now ≡ list_at (lists_of elements.now ends.now) i }
{
    if i < ends.len() {
        let (start, end) = range_of(ends, elements.len(), i);
        &elements[start..end]
    } else {
        &[]
    }
}
