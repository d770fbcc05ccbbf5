//! The conventions by which arguments are handed over.

ghost use Rattle.std.specs.Prelude.{◌≡◌};
ghost use Rattle.argument_conventions.specs.Rows as rows;

use crate::row::{AddressRow, CallEffect, Content};

/// How an argument of a function is handed over, be it one of its entry or of a call.
#[derive(Clone, Copy, Debug, PartialEq, Eq)]
pub enum ArgumentConvention {
    /// The value, of a trivial type.
    Plain,
    Owned,
    Guaranteed,
    /// The address of a location that holds the value.
    Address(AddressConvention),
}

/// What becomes of a location whose address is handed over.
#[derive(Clone, Copy, Debug, PartialEq, Eq)]
pub enum AddressConvention {
    Inout,
    In,
    InGuaranteed,
    /// It takes a result.
    Out,
}

impl AddressConvention {
    /// Its row of the table.
    pub fn row(self) -> AddressRow
        ensures { result ≡ rows.row_of self }
    {
        match self {
            AddressConvention::Inout => AddressRow {
                before: Content::Full,
                after: Content::Full,
                counts_as: CallEffect::Writes,
                shared: false,
            },
            AddressConvention::In => AddressRow {
                before: Content::Full,
                after: Content::Empty,
                counts_as: CallEffect::Takes,
                shared: false,
            },
            AddressConvention::InGuaranteed => AddressRow {
                before: Content::Full,
                after: Content::Full,
                counts_as: CallEffect::Reads,
                shared: true,
            },
            AddressConvention::Out => AddressRow {
                before: Content::Empty,
                after: Content::Full,
                counts_as: CallEffect::Writes,
                shared: false,
            },
        }
    }
}

impl ArgumentConvention {
    /// The row of the table, where the argument is an address.
    pub fn address_row(self) -> Option<AddressRow>
        ensures { result ≡ rows.address_row self }
    {
        match self {
            ArgumentConvention::Plain
            | ArgumentConvention::Owned
            | ArgumentConvention::Guaranteed => None,
            ArgumentConvention::Address(convention) => Some(convention.row()),
        }
    }
}
