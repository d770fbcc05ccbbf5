//! Slots as later ones of one first slot, as a family of automata.

ghost use Rattle.std.specs.Prelude.{◌≡◌, ℕ, ◌<◌, All, Contains, length, slice_index_or};
ghost use Rattle.std.specs.List.Sorted.{IsStrictlyIncreasing};
ghost use Rattle.reach_engine.specs.declared.scan.Step.TheVariants.{Go};
ghost use Rattle.memory_rules_accesses.specs.reach_engine_marks.PathPatterns.inner.Reads.{accesses_at};
ghost use Rattle.memory_rules_slots.specs.inner.Automaton.{pair_step};
ghost use Rattle.memory_rules_slots.specs.inner.Chunks.{IsChunkOf};

use crate::chunk::Chunk;
use crate::pair::step_all;
use crate::touched::has_slot;
use memory_rules_accesses::Access;
use reach_engine::{Family, MoveAll, Step, turn_touched};
use sil_ast::ValueId;

/// The slots of a chunk, each as the second of two.
#[derive(Drop)]
pub struct Rivals<'a> {
    pub accesses: &'a [Vec<Access>],
    pub first: ValueId,
    pub chunk: &'a Chunk,
    ghost of: { IsChunkOf accesses.now chunk.now },
}

impl Rivals<'_> {
    /// The places of the slots that the item can move: all others stay in their states.
    fn touched(&self, item: usize) -> &[u32]
        requires { item < length self.now.accesses.now }
        ensures ascending { IsStrictlyIncreasing result.now }
        ensures below { All (λ u. u < length self.now.chunk.now.slots.items) result.now }
        ensures others { (u s : ℕ) → u < length self.now.chunk.now.slots.items → (Contains result.now u → ⊥)
            → pair_step (accesses_at self.now.accesses.now) self.now.first (slice_index_or self.now.chunk.now.slots.items u self.now.first) s item ≡ Go s }
    {
        if has_slot(self.accesses[item].as_slice(), self.first) {
            self.chunk.all.as_slice()
        } else {
            self.chunk.touched[item].as_slice()
        }
    }
}

impl Family for Rivals<'_> {
    ghost step_of = { λ r u. pair_step (accesses_at r.accesses.now) r.first (slice_index_or r.chunk.now.slots.items u r.first) };

    ghost subject_count = { λ r. length r.chunk.now.slots.items };

    ghost state_count = { λ _. 5 };

    ghost item_count = { λ r. length r.accesses.now };

    fn subjects(&self) -> usize {
        self.chunk.slots.len()
    }

    fn states(&self) -> u8 {
        5
    }

    fn items(&self) -> usize {
        self.accesses.len()
    }

    fn step(&self, subject: usize, state: u8, item: usize) -> Step {
        step_all(
            self.first,
            self.chunk.slots[subject],
            self.accesses[item].as_slice(),
            state,
        )
    }
}

impl MoveAll for Rivals<'_> {
    fn move_all(&self, width: usize, item: usize, bundle: &mut [u64], bad: &mut [u64]) {
        turn_touched(self, self.touched(item), width, item, bundle, bad);
    }
}
