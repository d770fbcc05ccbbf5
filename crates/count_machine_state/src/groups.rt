//! Values that are made of several, or of a case.

ghost use Rattle.std.specs.Prelude.{◌≡◌, ◌<◌, ◌^◌, [], length, take, drop, OnOk};
ghost use Rattle.count_machine_model.specs.MachineSteps.Operands.{put};
ghost use Rattle.count_machine_model.specs.MachineSteps.Places.{all_contents, chosen_leaves, payload_contents};
ghost use Rattle.count_machine_model.specs.MachineSteps.Views.{MachineView};

use crate::machine::Machine;
use count_machine_leaves::{gather_group, lay_case, lay_over};
use count_machine_model::{Frame, Local};
use sil_ast::Exhausted;

impl Machine {
    /// A value becomes one that has others as its members.
    pub fn put_group(
        &mut self,
        frame: &Frame,
        operands: &[Local],
        to: Local,
    ) -> Result<(), Exhausted>
        ensures { OnOk result (self.new ≡ put self.old frame.now to (all_contents self.old frame.now [] operands.now)) }
    {
        gather_group(&mut self.moving, &self.leaves, frame.leaves, operands)?;
        lay_over(
            &mut self.leaves,
            frame.leaves.saturating_add(to.at as usize),
            &self.moving,
        );
        self.put_there(frame, to.value);
        Ok(())
    }

    /// A value becomes a case of an enum.
    #[inline]
    pub fn put_case(&mut self, frame: &Frame, case_index: u32, payload: Option<Local>, to: Local)
        ensures { let leaves = payload_contents self.old frame.now [] payload in
            self.new ≡ put self.old frame.now to (chosen_leaves self.old frame.now [] to.size case_index leaves) }
    {
        let (from, count) = payload_window(frame, payload);
        let place = frame.leaves.saturating_add(to.at as usize);
        lay_case(
            &mut self.leaves,
            case_index,
            from,
            count,
            to.size as usize,
            place,
        );
        self.put_there(frame, to.value);
    }
}

/// Where the leaves of a payload stand, and how many it has.
#[inline]
fn payload_window(frame: &Frame, payload: Option<Local>) -> (usize, usize)
    ensures { (st : MachineView) → length st.leaves < 2 ^ 64 → take result.1 (drop result.0 st.leaves) ≡ payload_contents st frame.now [] payload }
{
    match payload {
        Some(local) => (
            frame.leaves.saturating_add(local.at as usize),
            local.size as usize,
        ),
        None => (0, 0),
    }
}
