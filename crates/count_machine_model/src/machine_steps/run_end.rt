//! How a run of the machine ends.

use crate::ready_code::Local;
use holder_model::LowFault;
use sil_ast::{FuncId, PointId};

/// Why the machine stopped.
#[derive(Clone, Copy, Debug, PartialEq, Eq)]
pub enum RunEnd {
    /// The first frame returned this operand.
    Returned { operand: Local },
    /// The trap of the `cond_fail` at this point.
    CondFail { function: FuncId, point: PointId },
    Unreachable,
    Unowned,
    Escaped,
    Depth,
    OutOfTurns,
    Fault { fault: LowFault },
}
