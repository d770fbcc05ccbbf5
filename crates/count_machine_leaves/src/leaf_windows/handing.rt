//! Leaves of a value that are handed to another one, all of them or a part.

ghost use Rattle.std.specs.Prelude.{◌≡◌, ◌+◌, drop, take};
ghost use Rattle.count_machine_model.specs.MachineSteps.Operands.{laid_over};

use crate::leaf_windows::leaf_lists::move_over;
use count_machine_model::Local;
use holder_model_values::Leaf;

/// Leaves of a frame that begin at a base are laid over others of the same frame or of another one.
#[inline]
pub fn hand_over(leaves: &mut [Leaf], from: usize, operand: Local, base: usize, to: Local)
    ensures { leaves.new ≡ laid_over (base + to.at) (take operand.size (drop (from + operand.at) leaves.old)) leaves.old }
{
    let begin = from.saturating_add(operand.at as usize);
    let end = base.saturating_add(to.at as usize);
    move_over(leaves, begin, operand.size as usize, end);
}

/// The same, for a part of the operand.
#[inline]
pub fn lay_part(leaves: &mut [Leaf], base: usize, operand: Local, from: u32, to: Local)
    ensures { leaves.new ≡ laid_over (base + to.at) (take to.size (drop from (take operand.size (drop (base + operand.at) leaves.old)))) leaves.old }
{
    let at = base.saturating_add(operand.at as usize);
    let begin = at.saturating_add(from as usize);
    let size = to.size.min(operand.size.saturating_sub(from));
    let end = base.saturating_add(to.at as usize);
    move_over(leaves, begin, size as usize, end);
}
