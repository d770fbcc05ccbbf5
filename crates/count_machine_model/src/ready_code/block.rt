//! Blocks and their terminators, made ready to run.

use crate::ready_code::local::{Carry, Local};
use crate::ready_code::op::ReadyOp;
use sil_ast::List;

/// An edge of `br` or `cond_br`: the block to which it goes, and what becomes of what is handed over.
#[derive(Drop)]
pub struct ReadyEdge {
    pub block: u32,
    pub values: List<Carry>,
}

/// The edge of a case of an enum: its block, and the argument that takes the payload, where one does.
#[derive(Clone, Copy, Debug, PartialEq, Eq)]
pub struct ReadyCase {
    pub block: u32,
    pub payload: Option<Local>,
}

/// A terminator.
#[derive(Drop)]
pub enum ReadyEnd {
    Jump {
        edge: ReadyEdge,
    },
    /// The first edge is taken where the condition is set.
    Branch {
        condition: Local,
        set: ReadyEdge,
        clear: ReadyEdge,
    },
    /// By the case of the operand, one for each case of its enum.
    Switch {
        operand: Local,
        cases: List<ReadyCase>,
    },
    Return {
        operand: Local,
    },
    Unreachable,
}

/// A block: its instructions, and the terminator behind them.
#[derive(Drop)]
pub struct ReadyBlock {
    pub ops: List<ReadyOp>,
    pub end: ReadyEnd,
}
