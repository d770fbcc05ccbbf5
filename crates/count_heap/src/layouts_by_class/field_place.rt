//! Where a field lies.

/// Where a field lies among the leaves of its object: first a leaf that tells whether the field is written, and then its own.
#[derive(Clone, Copy)]
pub struct FieldPlace {
    pub from: u32,
    pub count: u32,
}
