//! Values of a run, apart from addresses and functions.

use sil_ast::{Boxed, List, ObjectId};

/// A value of an object type.
#[derive(Drop)]
pub enum Val {
    /// An integer, as the signed residue of its width.
    Int(i64),
    /// A reference of an object.
    Object(ObjectId),
    /// A struct or a tuple: its members in order.
    Group(Boxed<List<Val>>),
    /// A case of an enum, by its place among the cases, from 0, and its payload if it has one.
    Chosen {
        case_index: u32,
        payload: Option<Boxed<Val>>,
    },
}
