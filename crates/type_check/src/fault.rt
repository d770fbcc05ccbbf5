//! A rule of typing that is broken, and where.

use sil_ast::{FuncId, PointId};
use sil_rules::Rule;

/// One of 201 to 212, and where it is broken: at a function, at a point of a function, or at a vtable.
#[derive(Clone, Copy, Debug, PartialEq, Eq)]
pub struct TypingFault {
    pub rule: Rule,
    pub function: Option<FuncId>,
    pub point: Option<PointId>,
    /// The place of a vtable among the module's, counted from 0.
    pub vtable: Option<u32>,
}
