//! One subject of a family as an automaton by itself.

ghost use Rattle.std.specs.Prelude.{◌≡◌, ◌<◌};

use crate::family::Family;
use crate::scan::{Scan, Step};

/// One subject of a family, by itself.
#[derive(Drop)]
pub struct Member<'a, F: Family> {
    pub family: &'a F,
    pub subject: usize,
    ghost within: { subject < F.subject_count family.now },
}

impl<F: Family> Scan for Member<'_, F> {
    ghost step_of = { λ m s i. F.step_of m.family.now m.subject s i };

    ghost state_count = { λ m. F.state_count m.family.now };

    ghost item_count = { λ m. F.item_count m.family.now };

    fn states(&self) -> u8 {
        self.family.states()
    }

    fn items(&self) -> usize {
        self.family.items()
    }

    fn step(&self, state: u8, item: usize) -> Step {
        self.family.step(self.subject, state, item)
    }
}
