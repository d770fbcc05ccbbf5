//! The switch that goes to a block.

use sil_ast::ValueId;

/// A `switch_enum` that goes to a block: its operand, and whether it goes there by its default.
#[derive(Clone, Copy, Debug, PartialEq, Eq)]
pub struct Switched {
    pub operand: ValueId,
    pub is_default: bool,
}
