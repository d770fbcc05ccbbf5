//! How frames come and go.

ghost use Rattle.std.specs.Prelude.{◌≡◌, drop, IfOk, OnOk};
ghost use Rattle.count_machine_model.specs.MachineSteps.Calling.{addresses_carried, carried, new_frame, with_frame, without_frame};
ghost use Rattle.count_machine_model.specs.MachineSteps.Operands.{contents, put};

use crate::machine::Machine;
use crate::operands::NO_ADDRESS;
use count_machine_leaves::{gather_carried, hand_over, lay_carried, lengthen, mark_carried};
use count_machine_model::{Carry, CarryAddress, Frame, ReadyFunction, Task};
use holder_model_values::Leaf;
use sil_ast::{Exhausted, FuncId};

impl Machine {
    /// The frame of a function that is called now.
    fn new_frame(&self, function: FuncId) -> Frame
        ensures { result ≡ new_frame self.now function }
    {
        Frame {
            function,
            block: 0,
            index: 0,
            values: self.there.len(),
            leaves: self.leaves.len(),
            addresses: self.addresses.len(),
            slots: self.slots.len(),
        }
    }

    /// A new frame, with room for the values of the function, none of which is there yet.
    #[inline(always)]
    pub fn add_frame(&mut self, function: FuncId, f: &ReadyFunction) -> Result<Frame, Exhausted>
        ensures frame { IfOk result (λ fr. fr ≡ new_frame self.old function) }
        ensures room { OnOk result (self.new ≡ with_frame self.old function f.now) }
    {
        let frame = self.new_frame(function);
        self.push_task(Task::Runs { frame })?;
        lengthen(&mut self.there, f.values, false)?;
        lengthen(&mut self.leaves, f.leaves, Leaf::Blank)?;
        lengthen(&mut self.addresses, f.addresses, NO_ADDRESS)?;
        Ok(frame)
    }

    /// Values of a frame become values of another one, or of itself, all at once.
    #[inline(always)]
    #[tactic(auto, using(crate::proofs::CarriedLists::carried_none))]
    pub fn carry(&mut self, from: &Frame, to: &Frame, values: &[Carry]) -> Result<(), Exhausted>
        ensures { OnOk result (self.new ≡ carried self.old from.now to.now values.now) }
    {
        if values.len() == 0 {
            return Ok(());
        }
        if values.len() == 1 {
            self.carry_one(from, to, values[0]);
            return Ok(());
        }
        self.carry_all(from, to, values)
    }

    #[inline(never)]
    fn carry_all(&mut self, from: &Frame, to: &Frame, values: &[Carry]) -> Result<(), Exhausted>
        ensures { OnOk result (self.new ≡ carried self.old from.now to.now values.now) }
    {
        gather_carried(&mut self.moving, &self.leaves, from.leaves, values)?;
        lay_carried(
            &mut self.leaves,
            &self.moving,
            from.leaves,
            to.leaves,
            values,
        );
        mark_carried(&mut self.there, to.values, values);
        Ok(())
    }

    #[inline(always)]
    fn carry_one(&mut self, from: &Frame, to: &Frame, carry: Carry)
        ensures { self.new ≡ put self.old to.now carry.to (contents self.old from.now carry.from) }
    {
        hand_over(
            &mut self.leaves,
            from.leaves,
            carry.from,
            to.leaves,
            carry.to,
        );
        self.put_there(to, carry.to.value);
    }

    /// Addresses of a frame are handed to another one.
    pub fn carry_addresses(&mut self, from: &Frame, to: &Frame, addresses: &[CarryAddress])
        ensures { self.new ≡ addresses_carried self.old from.now to.now addresses.now }
    {
        for carry in addresses {
            let address = self.address(from, carry.from);
            self.put_address(to, carry.to, address);
        }
    }

    /// The top frame is gone, with its values.
    #[inline]
    pub fn remove_frame(&mut self, frame: &Frame)
        ensures { self.new ≡ without_frame self.old frame.now (drop 1 self.old.tasks) }
    {
        self.pop_task();
        self.there.truncate(frame.values);
        self.leaves.truncate(frame.leaves);
        self.addresses.truncate(frame.addresses);
    }
}
