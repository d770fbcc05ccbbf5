//! The state of the machine.

use count_heap::Heap;
use count_machine_model::{Address, OpenSlot, Task};
use holder_model::Event;
use holder_model_values::Leaf;
use sil_ast::{List, ObjectId};
use std::marker::Model;

/// What the machine keeps. To a contract it is a `MachineView`, whose tasks stand the other way round.
#[derive(Drop)]
pub struct Machine {
    /// The one that goes on comes last.
    pub(crate) tasks: Vec<Task>,
    /// How many of the tasks are frames.
    pub(crate) frames: usize,
    /// Of all frames, the newest behind: which values are there, their leaves, and their addresses.
    pub(crate) there: Vec<bool>,
    pub(crate) leaves: Vec<Leaf>,
    pub(crate) addresses: Vec<Address>,
    /// The open slots of all frames, and their leaves.
    pub(crate) slots: Vec<OpenSlot>,
    pub(crate) slot_leaves: Vec<Leaf>,
    /// References that wait to be dropped, the next one last.
    pub(crate) waiting: Vec<ObjectId>,
    pub(crate) heap: Heap,
    pub(crate) events: List<Event>,
    pub(crate) turns: u32,
    /// How many slots there were.
    pub(crate) serials: u64,
    /// Leaves on their way along an edge: no part of the state.
    pub(crate) moving: Vec<Leaf>,
}

impl Model for Machine {
    ghost use Rattle.std.specs.Prelude.{◌≡◌, reverse};
    ghost use Rattle.std.specs.Coded.{codes};
    ghost use Rattle.sil_ast.specs.contracts.type_name.TypeName as type_name;
    ghost use Rattle.count_machine_model.specs.MachineSteps.Turning.{frames_in};
    ghost use Rattle.count_machine_model.specs.MachineSteps.Views.{MachineView};

    ghost Value = { MachineView };

    ghost coded = { Prim.hlevel (codes, type_name.the_row.coded) };

    ghost view = { λ m. record {
      tasks = reverse m.tasks.items;
      there = m.there.items;
      leaves = m.leaves.items;
      addresses = m.addresses.items;
      slots = m.slots.items;
      slot_leaves = m.slot_leaves.items;
      waiting = m.waiting.items;
      heap = m.heap;
      events = m.events;
      turns = m.turns;
      serials = m.serials;
    } };

    ghost invariant = { λ m. m.frames ≡ frames_in (reverse m.tasks.items) };
}
