//! A table of new numbers.

ghost use Rattle.std.specs.Prelude.{◌≡◌};
ghost use Rattle.ownership_lowering_functions.specs.ValueRenumbering.inner.NewNumbers.{name_in, number_in, place_in};

use sil_ast::{List, ValueId};

/// Numbers of values. Values behind those of the list have one number together.
#[derive(Drop)]
pub struct Places {
    pub numbers: List<ValueId>,
    pub others: ValueId,
}

/// The new numbers of values, by their old ones. A value that is another name has the number of the one for which it stands.
#[derive(Drop)]
pub struct NewNumbers {
    /// The value for which each stands, where that isn't itself.
    pub names: List<Option<ValueId>>,
    pub places: Places,
}

impl Places {
    /// The number of a value.
    pub fn number(&self, value: ValueId) -> ValueId
        ensures { result ≡ place_in self.now value }
    {
        match self.numbers.get(value.0 as usize) {
            Some(number) => *number,
            None => self.others,
        }
    }
}

impl NewNumbers {
    fn name(&self, value: ValueId) -> ValueId
        ensures { result ≡ name_in self.now.names value }
    {
        match self.names.get(value.0 as usize) {
            Some(Some(name)) => *name,
            _ => value,
        }
    }

    /// The new number of a value.
    pub fn number(&self, value: ValueId) -> ValueId
        ensures { result ≡ number_in self.now value }
    {
        self.places.number(self.name(value))
    }
}
