//! Two slots as one automaton over items.

ghost use Rattle.std.specs.Prelude.{◌≡◌, ◌<◌, length};
ghost use Rattle.reach_engine.specs.inner.Run.{run, StaysBelow};
ghost use Rattle.reach_engine.specs.declared.scan.Step.TheVariants.{Go};
ghost use Rattle.memory_rules_accesses.specs.reach_engine_marks.PathPatterns.inner.Reads.{accesses_at, read_step};
ghost use Rattle.memory_rules_slots.specs.inner.Automaton.{order_step};
ghost use Rattle.memory_rules_slots.specs.Marks.{pair_mark};
ghost use Rattle.memory_rules_slots.specs.inner.Automaton.{pair_step};

use crate::mark::{mark_of, step};
use memory_rules_accesses::Access;
use reach_engine::{Scan, Step};
use sil_ast::ValueId;

/// Two slots, with what each item does.
#[derive(Drop)]
pub struct Pair<'a> {
    pub accesses: &'a [Vec<Access>],
    pub first: ValueId,
    pub second: ValueId,
}

/// One access, as it is to two slots.
fn step_one(first: ValueId, second: ValueId, access: &Access, state: u8) -> Step
    requires { state < 5 }
    ensures step { result ≡ read_step order_step (pair_mark first second) state access.now }
    ensures stays { StaysBelow 5 result }
{
    match mark_of(first, second, access) {
        None => Step::Go(state),
        Some(mark) => step(state, mark),
    }
}

/// The accesses of one item, one after another.
pub fn step_all(first: ValueId, second: ValueId, accesses: &[Access], state: u8) -> Step
    requires { state < 5 }
    ensures step { result ≡ run (read_step order_step (pair_mark first second)) (Go state) accesses.now }
    ensures stays { StaysBelow 5 result }
{
    let mut current = state;
    for access in accesses {
        match step_one(first, second, access, current) {
            Step::Go(next) => current = next,
            Step::Bad(code) => return Step::Bad(code),
        }
    }
    Step::Go(current)
}

impl Scan for Pair<'_> {
    ghost step_of = { λ p. pair_step (accesses_at p.accesses.now) p.first p.second };

    ghost state_count = { λ _. 5 };

    ghost item_count = { λ p. length p.accesses.now };

    fn states(&self) -> u8 {
        5
    }

    fn items(&self) -> usize {
        self.accesses.len()
    }

    fn step(&self, state: u8, item: usize) -> Step {
        step_all(
            self.first,
            self.second,
            self.accesses[item].as_slice(),
            state,
        )
    }
}
