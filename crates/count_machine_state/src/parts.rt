//! Leaves that are handed on: parts of a value, and what a frame returns.

ghost use Rattle.std.specs.Prelude.{◌≡◌, ◌+◌, drop, take};
ghost use Rattle.count_machine_model.specs.MachineSteps.Operands.{contents, laid_over, put};

use crate::machine::Machine;
use count_machine_leaves::{hand_over, lay_part};
use count_machine_model::{Frame, Local};

impl Machine {
    /// A value becomes a part of another one.
    #[inline]
    pub fn copy_part(&mut self, frame: &Frame, operand: Local, from: u32, to: Local)
        ensures { self.new ≡ put self.old frame.now to (take to.size (drop from (contents self.old frame.now operand))) }
    {
        lay_part(&mut self.leaves, frame.leaves, operand, from, to);
        self.put_there(frame, to.value);
    }

    /// What a frame returns becomes a value of its caller.
    #[inline]
    pub fn hand_back(&mut self, frame: &Frame, operand: Local, caller: &Frame, to: Local)
        ensures { self.new ≡ record self.old { leaves = laid_over (caller.now.leaves + to.at) (contents self.old frame.now operand) self.old.leaves } }
    {
        hand_over(&mut self.leaves, frame.leaves, operand, caller.leaves, to);
    }
}
