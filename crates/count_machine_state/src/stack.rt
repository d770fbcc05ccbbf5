//! The stack of tasks.

ghost use Rattle.std.specs.Prelude.{◌≡◌, ◌∷◌, List, drop, OnOk, reverse, slice_get, length, IfErr};
ghost use Rattle.count_machine_model.specs.MachineSteps.Ends.{in_block};
ghost use Rattle.count_machine_model.specs.MachineSteps.Turning.{frames_in};
ghost use Rattle.count_machine_model.specs.declared.machine_steps.frame.Task.{Task};
ghost use Rattle.count_machine_model.specs.declared.machine_steps.frame.Task.TheVariants.{Runs};
ghost use Rattle.count_machine_state.specs.GoingOn.{GoesOn, frame_of};
ghost use Rattle.count_machine_state.specs.declared.stop.Stop.TheVariants.{Memory};
ghost use Rattle.count_machine_state.specs.inner.Raised.{moved, raised};

use crate::machine::Machine;
use crate::stop::Stop;
use count_machine_model::{Frame, Task};
use sil_ast::Exhausted;

impl Machine {
    /// A task goes on before the others.
    #[inline]
    pub fn push_task(&mut self, task: Task) -> Result<(), Exhausted>
        ensures { OnOk result (self.new ≡ record self.old { tasks = task ∷ self.old.tasks }) }
    {
        self.tasks.push(task)?;
        if let Task::Runs { .. } = task {
            self.frames += 1;
        }
        Ok(())
    }

    /// The task that goes on, where there is one.
    #[inline]
    pub fn top_task(&self) -> Option<Task>
        ensures { result ≡ slice_get self.now.tasks 0 }
    {
        self.tasks.last().copied()
    }

    /// The frame that goes on, where a frame does. It is read field by field: one that was just changed in part is there sooner so.
    #[inline]
    pub fn top_frame(&self) -> Option<Frame>
        ensures { result ≡ frame_of (slice_get self.now.tasks 0) }
    {
        match self.tasks.last() {
            Some(Task::Runs { frame }) => Some(Frame {
                function: frame.function,
                block: frame.block,
                index: frame.index,
                values: frame.values,
                leaves: frame.leaves,
                addresses: frame.addresses,
                slots: frame.slots,
            }),
            _ => None,
        }
    }

    /// The task that goes on is gone.
    #[inline]
    pub fn pop_task(&mut self)
        ensures { self.new ≡ record self.old { tasks = drop 1 self.old.tasks } }
    {
        if let Some(Task::Runs { .. }) = self.tasks.pop() {
            self.frames -= 1;
        }
    }

    /// The task below the one that goes on, where there is one.
    #[inline]
    pub fn next_task(&self) -> Option<Task>
        ensures { result ≡ slice_get self.now.tasks 1 }
    {
        let count = self.tasks.len();
        if count < 2 {
            return None;
        }
        Some(self.tasks[count - 2])
    }

    /// How many tasks there are.
    #[inline]
    pub fn task_count(&self) -> usize
        ensures { result ≡ length self.now.tasks }
    {
        self.tasks.len()
    }

    /// The frame that goes on begins a block of its function.
    #[inline]
    pub fn go_to(&mut self, block: u32)
        ensures { (fr : Frame) (rest : List Task) → self.old.tasks ≡ Runs fr ∷ rest → self.new ≡ record self.old { tasks = Runs (in_block fr block) ∷ rest } }
    {
        move_to(&mut self.tasks, block);
    }

    /// The frame goes on behind its instruction.
    #[inline]
    pub fn go_on(&mut self) -> Result<(), Stop>
        ensures { (fr : Frame) → GoesOn self.old fr self.old result self.new }
    {
        raise_index(&mut self.tasks)
    }
}

/// The last task, if it is a frame, begins a block of its function.
fn move_to(tasks: &mut [Task], block: u32)
    ensures frames { frames_in (reverse tasks.new) ≡ frames_in (reverse tasks.old) }
    ensures moved { reverse tasks.new ≡ moved block (reverse tasks.old) }
{
    let count = tasks.len();
    if count == 0 {
        return;
    }
    if let Task::Runs { frame } = &mut tasks[count - 1] {
        frame.block = block;
        frame.index = 0;
    }
}

/// The last task, if it is a frame, goes on behind its instruction.
#[inline]
fn raise_index(tasks: &mut [Task]) -> Result<(), Stop>
    ensures frames { frames_in (reverse tasks.new) ≡ frames_in (reverse tasks.old) }
    ensures raised { OnOk result (reverse tasks.new ≡ raised (reverse tasks.old)) }
    ensures full { IfErr result (λ stop. stop ≡ Memory) }
{
    let count = tasks.len();
    if count == 0 {
        return Ok(());
    }
    if let Task::Runs { frame } = &mut tasks[count - 1] {
        if frame.index == u32::MAX {
            return Err(Stop::Memory);
        }
        frame.index += 1;
    }
    Ok(())
}
