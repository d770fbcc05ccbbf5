//! Addresses, and the slots that are open.

use sil_ast::ObjectId;

/// Where a place lies.
#[derive(Clone, Copy, Debug, PartialEq, Eq)]
pub enum Home {
    /// In the open slot with this index, if that is still the one with this serial number.
    Slot { index: u32, serial: u64 },
    /// In a field of an object, by its place among all fields.
    Field { object: ObjectId, field: u32 },
}

/// The address of a place: its slot or field, where its leaves begin there, and whether it is a part.
#[derive(Clone, Copy, Debug, PartialEq, Eq)]
pub struct Address {
    pub home: Home,
    pub from: u32,
    pub is_part: bool,
}

/// A slot that is open: its number among all slots of the run, where its leaves begin, and whether it is full.
#[derive(Clone, Copy, Debug, PartialEq, Eq)]
pub struct OpenSlot {
    pub serial: u64,
    pub from: usize,
    pub is_full: bool,
}
