//! What the values of a function are to memory, and the locations that they name.

ghost use Rattle.std.specs.Prelude.{◌≡◌, ◌≤◌, ◌^◌, IfOk, length};
ghost use Rattle.std.specs.Option.{option_copied};
ghost use Rattle.numbered_form.specs.Numbering.{values_of};
ghost use Rattle.memory_rules_accesses.specs.Locations as locations;
ghost use Rattle.memory_rules_accesses.specs.Rows as rows;
ghost use Rattle.memory_rules_accesses.specs.Sources as sources;

use crate::access::Operation;
use crate::locating::{location_at, locations_of, source_at, upcast_from};
use crate::location::{Cell, Location, overlap};
use crate::rows::{field_has, shared_has, slot_has};
use crate::source::Source;
use crate::sources::sources_of;
use sil_ast::{Exhausted, Function, List, ValueId};
use sil_types::TypeTable;
use std::alloc::Global;
use std::marker::Model;

/// What each value of a function is to memory, and the location that each address names.
#[derive(Drop)]
pub struct Memory {
    sources: List<Source>,
    locations: List<Option<Location>>,
}

impl Model for Memory {
    ghost use Rattle.std.specs.Prelude.{◌≡◌, ◌≤◌, ◌^◌, List, length};
    ghost use Rattle.memory_rules_accesses.specs.inner.Kept.{locations_of};
    ghost use Rattle.memory_rules_accesses.specs.declared.source.Source.{Source};

    ghost Value = { List Source };

    ghost view = { λ m. m.sources };

    ghost invariant = { λ m. (length m.sources ≤ 2 ^ 32) × (m.locations ≡ locations_of m.sources) };
}

impl Memory {
    /// What the values of `f` are to memory; `table` has the types of its module. There are no more values than have numbers.
    /// The time goes with the size of the function, and with the number of steps to each address.
    pub fn of(alloc: Global, table: &TypeTable, f: &Function) -> Result<Memory, Exhausted>
        requires { length (values_of f.now.blocks) ≤ 2 ^ 32 }
        ensures { IfOk result (λ m. m ≡ sources.sources_of table.now f.now) }
    {
        let sources = sources_of(alloc, table, f)?;
        let locations = locations_of(alloc, sources.as_slice())?;
        Ok(Memory { sources, locations })
    }

    /// How many values there are.
    pub fn values(&self) -> usize
        ensures count { result ≡ length self.now }
        ensures few { result ≤ 2 ^ 32 }
    {
        self.sources.len()
    }

    /// What the values are to memory, by their numbers.
    pub fn sources(&self) -> &[Source]
        ensures { result.now ≡ self.now }
    {
        self.sources.as_slice()
    }

    /// What a value is to memory. A number that is no value's is nothing to it.
    pub fn source(&self, value: ValueId) -> Source
        ensures { result ≡ sources.source_at self.now value }
    {
        source_at(self.sources.as_slice(), value)
    }

    /// Whether a value is a slot.
    pub fn is_slot(&self, value: ValueId) -> bool
        ensures { result ≡ sources.is_slot self.now value }
    {
        self.source(value).is_slot()
    }

    /// Whether what is at the root is of a trivial type.
    pub fn is_trivial_at(&self, root: ValueId) -> bool
        ensures { result ≡ sources.is_trivial_at self.now root }
    {
        self.source(root).is_trivial()
    }

    /// The location that an address names, if it names one.
    pub fn location(&self, address: ValueId) -> Option<&Location>
        ensures { option_copied result ≡ locations.location_of self.now address }
    {
        location_at(self.locations.as_slice(), address)
    }

    /// Whether the locations that two addresses name overlap.
    pub fn do_overlap(&self, a: ValueId, b: ValueId) -> bool
        ensures { result ≡ locations.do_overlap self.now a b }
    {
        match (self.location(a), self.location(b)) {
            (Some(one), Some(other)) => overlap(one, other),
            _ => false,
        }
    }

    /// The new object that is built through a value: the object that the value borrows, itself or through upcasts.
    pub fn object_built(&self, value: ValueId) -> Option<ValueId>
        ensures { result ≡ locations.object_built self.now value }
    {
        let Source::Borrow { of } = self.source(upcast_from(self.sources(), value)) else {
            return None;
        };
        match self.source(of) {
            Source::Object { .. } => Some(of),
            _ => None,
        }
    }

    /// Whose contents are at a root: its own, or those of a field of the new object that is built there.
    pub fn cell(&self, root: ValueId) -> Cell
        ensures { result ≡ locations.cell_of self.now root }
    {
        let whole = Cell {
            subject: root,
            field: None,
        };
        let Source::Field { of, index, .. } = self.source(root) else {
            return whole;
        };
        match self.object_built(of) {
            None => whole,
            Some(object) => Cell {
                subject: object,
                field: Some(index),
            },
        }
    }

    /// Whether a location of this kind has the operation.
    pub fn has_operation(&self, location: &Location, operation: Operation) -> bool
        ensures { result ≡ rows.has_operation self.now location.now operation }
    {
        let part = location.is_part();
        match self.source(location.root) {
            Source::Slot { .. } => slot_has(part, operation),
            Source::Argument { row, .. } => {
                if row.shared {
                    shared_has(operation)
                } else {
                    slot_has(part, operation)
                }
            }
            Source::Field { of, .. } => {
                field_has(part, self.object_built(of).is_some(), operation)
            }
            Source::Object { .. }
            | Source::Borrow { .. }
            | Source::Upcast { .. }
            | Source::Loan { .. }
            | Source::Part { .. }
            | Source::Other => false,
        }
    }
}
