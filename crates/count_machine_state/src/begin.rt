//! How a run begins, and what is taken out of the machine when it has ended.

ghost use Rattle.std.specs.Prelude.{◌≡◌, IfOk, Some, drop, slice_get, take};
ghost use Rattle.count_heap.specs.HeapModel.FieldLimits.{AreFieldsInLimits};
ghost use Rattle.count_machine_model.specs.MachineSteps.Runs.{begins, no_tasks};
ghost use Rattle.count_machine_model.specs.declared.ready_code.function.ReadyFunction.{ReadyFunction};

use crate::machine::Machine;
use count_heap::Heap;
use count_machine_leaves::window;
use count_machine_model::{Local, ReadyModule};
use holder_model::Event;
use holder_model_values::Leaf;
use sil_ast::{Exhausted, FuncId, List};
use sil_types::TypeTable;
use std::alloc::Global;

impl Machine {
    /// A machine without tasks, on a heap without objects.
    fn new(alloc: Global, table: &TypeTable) -> Result<Machine, Exhausted>
        requires { AreFieldsInLimits table.now }
        ensures { IfOk result (λ machine. machine ≡ no_tasks table.now) }
    {
        let heap = Heap::new(alloc, table)?;
        Ok(Machine {
            tasks: Vec::new(alloc),
            frames: 0,
            there: Vec::new(alloc),
            leaves: Vec::new(alloc),
            addresses: Vec::new(alloc),
            slots: Vec::new(alloc),
            slot_leaves: Vec::new(alloc),
            waiting: Vec::new(alloc),
            heap,
            events: List::new(alloc),
            turns: 1,
            serials: 0,
            moving: Vec::new(alloc),
        })
    }

    /// A machine at the first block of the entry function, with the first turn begun.
    pub fn begin(
        alloc: Global,
        table: &TypeTable,
        ready: &ReadyModule,
        entry: FuncId,
    ) -> Result<Machine, Exhausted>
        requires { AreFieldsInLimits table.now }
        ensures { IfOk result (λ machine. (f : ReadyFunction) → slice_get ready.now.functions entry.0 ≡ Some f → machine ≡ begins table.now entry f) }
    {
        let mut machine = Machine::new(alloc, table)?;
        if let Some(f) = ready.functions.get(entry.0 as usize) {
            machine.add_frame(entry, f)?;
        }
        Ok(machine)
    }

    /// The leaves of what the first frame returned.
    pub fn returned(&self, operand: Local) -> &[Leaf]
        ensures { result.now ≡ take operand.size (drop operand.at self.now.leaves) }
    {
        window(
            self.leaves.as_slice(),
            operand.at as usize,
            operand.size as usize,
        )
    }

    /// The events in their order, and the heap.
    pub fn into_events_and_heap(self) -> (List<Event>, Heap)
        ensures events { result.0 ≡ self.events }
        ensures heap { result.1 ≡ self.heap }
    {
        (self.events, self.heap)
    }
}
