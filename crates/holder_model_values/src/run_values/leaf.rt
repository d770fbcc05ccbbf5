//! Leaves: what a field of an object is kept as.

use sil_ast::ObjectId;

/// One of the parts of a value that have no parts. A value has as many as its type, be its enums in whatever cases.
#[derive(Clone, Copy, Debug, PartialEq, Eq)]
pub enum Leaf {
    /// An integer, as the signed residue of its width.
    Int(i64),
    /// A reference of an object, or the object that weak or unowned storage names.
    Object(ObjectId),
    /// The case of an enum, by its place among the cases, from 0.
    Tag(u32),
    /// Nothing: the case that an enum is in has fewer leaves than another one.
    Blank,
}
