//! Which terminators end the function: each other one goes on by an edge.

ghost use Rattle.std.specs.Prelude.{◌≡◌};
ghost use Rattle.sil_cfg.specs.Items.{ends_function};

use instruction_table::{Ending, Op, ending_of};

/// Whether the instruction ends the function: `return` and `unreachable`.
pub fn is_exit(op: Op) -> bool
    ensures { result ≡ ends_function op }
{
    match ending_of(op) {
        Ending::Return | Ending::Unreachable => true,
        Ending::Inside | Ending::OneBranch | Ending::TwoBranches | Ending::Cases => false,
    }
}
