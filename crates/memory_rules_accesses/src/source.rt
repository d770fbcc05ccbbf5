//! What a value is to memory.

ghost use Rattle.std.specs.Prelude.{◌≡◌};
ghost use Rattle.memory_rules_accesses.specs.Sources as sources;

use argument_conventions::AddressRow;
use sil_ast::ValueId;

/// What a value is to memory, by the instruction that defines it.
#[derive(Clone, Copy, Debug, PartialEq, Eq)]
pub enum Source {
    /// The address of a slot. It may be full when it is deallocated, if its type is trivial.
    Slot {
        trivial: bool,
    },
    /// An address that the entry is given, by a convention with this row.
    Argument {
        row: AddressRow,
        trivial: bool,
    },
    /// A new object with so many fields.
    Object {
        fields: usize,
    },
    /// A borrow of a value.
    Borrow {
        of: ValueId,
    },
    /// The same object, as an instance of an ancestor.
    Upcast {
        of: ValueId,
    },
    /// A borrow of what is at an address.
    Loan {
        of: ValueId,
    },
    /// The address of the field with this number, from 0, of an object.
    Field {
        of: ValueId,
        index: usize,
        trivial: bool,
    },
    /// The address of the member or element with this number, from 0, of what is at an address.
    Part {
        of: ValueId,
        index: usize,
    },
    /// Nothing.
    Other,
}

impl Source {
    /// Whether it is the address of a slot.
    pub fn is_slot(self) -> bool
        ensures { result ≡ sources.is_slot_source self }
    {
        matches!(self, Source::Slot { .. })
    }

    /// Whether what is there is of a trivial type, so that it is never asked to be empty.
    pub fn is_trivial(self) -> bool
        ensures { result ≡ sources.is_trivial_source self }
    {
        match self {
            Source::Slot { trivial } => trivial,
            Source::Argument { trivial, .. } => trivial,
            Source::Field { trivial, .. } => trivial,
            Source::Object { .. } | Source::Borrow { .. } | Source::Upcast { .. } => false,
            Source::Loan { .. } | Source::Part { .. } | Source::Other => false,
        }
    }
}
