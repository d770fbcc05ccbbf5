//! Names in order, each once, and the place of each.

ghost use Rattle.std.specs.Prelude.{◌≡◌, ℕ, List, [], ◌∷◌, ◌++◌, ◌<◌, ◌^◌, length, Contains, IfSome, OnOk};
ghost use Rattle.sil_types_declarations.specs.TypeDefinitions.Declarations.{place_of};

use indexmap::IndexSet;
use sil_ast::{Exhausted, Text, TryClone};
use std::alloc::Global;
use std::marker::Model;

/// Names that differ, in order. To a contract it is the list of them.
#[derive(Drop)]
pub(crate) struct NameIndex {
    names: IndexSet<Text>,
}

impl Model for NameIndex {
    ghost use Rattle.std.specs.Prelude.{ℕ, List, length, ◌<◌, ◌^◌};

    ghost Value = { List (List ℕ) };

    ghost view = { λ index. index.names.keys };

    ghost invariant = { λ index. length index.names.keys < 2 ^ 32 };
}

/// How many names are compared one after another.
const FEW: usize = 8;

fn place_among(names: &[Text], name: &Text) -> Option<usize>
    ensures place { result ≡ place_of names.now name.now }
    ensures within { IfSome result (λ place. place < length names.now) }
{
    names.iter().position(|own| *name == *own)
}

impl NameIndex {
    pub(crate) fn new(alloc: Global) -> NameIndex
        ensures { result ≡ [] }
    {
        NameIndex {
            names: IndexSet::new(alloc),
        }
    }

    /// Adds a name behind those that are there.
    pub(crate) fn add(&mut self, alloc: Global, name: &Text) -> Result<(), Exhausted>
        requires { Contains self.old name.now → ⊥ }
        ensures { OnOk result (self.new ≡ self.old ++ name.now ∷ []) }
    {
        if self.names.len() >= u32::MAX as usize {
            return Err(Exhausted);
        }
        self.names.insert(name.try_clone(alloc)?)?;
        Ok(())
    }

    /// The place of a name, from 0. Few names are gone through, which is faster than a hash.
    pub(crate) fn place(&self, name: &Text) -> Option<usize>
        ensures place { result ≡ place_of self.now name.now }
        ensures small { IfSome result (λ place. place < 2 ^ 32) }
    {
        if self.names.len() <= FEW {
            return place_among(self.names.as_slice(), name);
        }
        self.names.get_index_of(name)
    }

    /// The place of a name, as the number that callers see.
    pub(crate) fn number(&self, name: &Text) -> Option<u32>
        ensures { result ≡ place_of self.now name.now }
    {
        match self.place(name) {
            Some(place) => Some(place as u32),
            None => None,
        }
    }
}
