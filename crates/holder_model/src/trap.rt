//! How a program stops itself.

use sil_ast::Text;

/// Why a run ended in the middle.
#[derive(Drop)]
pub enum Trap {
    /// The operand of a `cond_fail` was set. It has the instruction's message.
    CondFail(Text),
    /// An `unreachable` was reached.
    Unreachable,
    /// An object was loaded from unowned storage that isn't live.
    Unowned,
    /// An object has a strong holder when its deinitialisers have returned.
    Escaped,
    /// A call would have made one frame too many.
    Depth,
}
