//! Switches over functions of which some values are marks: the item that names `%on0` turns subject 0 on.

ghost use Rattle.std.specs.Prelude.{◌≡◌, ℕ, ◌<◌, ◌==◌, length, slice_get, cond, IfOk};
ghost use Rattle.sil_cfg.specs.Layout.{item_count};
ghost use Rattle.reach_engine_marks.specs.PathPatterns.inner.Automaton.{mark_step};
ghost use Rattle.reach_engine_marks.specs.PathPatterns.inner.Reads.{step_in};

use reach_engine::{Family, MoveAll, Scan, Step, turn_touched};
use reach_engine_marks::{Mark, turn};
use sil_ast::{Exhausted, Function, ValueId};
use sil_cfg::{Graph, Item};
use sil_rules::Rule;
use std::alloc::Global;

/// The values that are marks stand first in the entry block: behind `%c` four for each of three subjects.
pub const MARKS: &str =
    "bb0: %c = integer_literal $Builtin.Int1, 0 %on0 = integer_literal $Builtin.Int1, 0 %off0 = integer_literal $Builtin.Int1, 0 \
     %need0 = integer_literal $Builtin.Int1, 0 %free0 = integer_literal $Builtin.Int1, 0 %on1 = integer_literal $Builtin.Int1, 0 %off1 = integer_literal \
     $Builtin.Int1, 0 %need1 = integer_literal $Builtin.Int1, 0 %free1 = integer_literal $Builtin.Int1, 0 %on2 = integer_literal $Builtin.Int1, 0 \
     %off2 = integer_literal $Builtin.Int1, 0 %need2 = integer_literal $Builtin.Int1, 0 %free2 = integer_literal $Builtin.Int1, 0 ";

const NO_MARK: Mark = Mark {
    needs: None,
    turns: None,
    rule: Rule::UnknownType,
};

/// `on` and `off` turn the switch; `need` breaks with code 2 where it is off, and `free` with code 1 where it is on:
/// the rules are any two with these indices.
fn mark_of(kind: u32) -> Mark {
    match kind {
        0 => Mark::turns_on(Rule::UnknownType),
        1 => Mark::turns_off(Rule::UnknownType),
        2 => Mark::needs_on(Rule::BadMember),
        _ => Mark::needs_off(Rule::InfiniteType),
    }
}

/// The first value that the item has as an operand, or hands over.
fn value_at(f: &Function, item: Item) -> Option<ValueId> {
    match item {
        Item::Entry | Item::Exit(_) => None,
        Item::Inst(p) => {
            let inst = f.blocks.get(p.block.0 as usize)?.inst(p.index as usize)?;
            Some(inst.operands.as_slice().get(0)?.value)
        }
        Item::Edge(e) => {
            let edge = f
                .blocks
                .get(e.block.0 as usize)?
                .terminator
                .edges
                .get(e.index as usize)?;
            Some(edge.args.get(0)?.value)
        }
    }
}

/// One subject's switch: a mark for each item of the graph.
#[derive(Drop)]
pub struct Switch {
    pub marks: Vec<Mark>,
}

impl Switch {
    /// The switch of a subject, from the values that the items name.
    pub fn of(alloc: Global, f: &Function, g: &Graph, subject: u32) -> Result<Switch, Exhausted>
        requires { subject < 3 }
        ensures { IfOk result (λ s. length s.marks.items ≡ item_count g.now) }
    {
        let first = 1 + 4 * subject;
        let mut marks = Vec::new(alloc);
        for i in 0..g.items() {
            marks.push(match value_at(f, g.item(i)) {
                Some(value) if first <= value.0 && value.0 - first < 4 => mark_of(value.0 - first),
                _ => NO_MARK,
            })?;
        }
        Ok(Switch { marks })
    }
}

impl Scan for Switch {
    ghost step_of = { λ s state item. step_in mark_step state (slice_get s.marks.items item) };

    ghost state_count = { λ _. 2 };

    ghost item_count = { λ s. length s.marks.items };

    fn states(&self) -> u8 {
        2
    }

    fn items(&self) -> usize {
        self.marks.len()
    }

    fn step(&self, state: u8, item: usize) -> Step {
        turn(state, self.marks[item])
    }
}

/// The switches of three subjects.
#[derive(Drop)]
pub struct Switches {
    pub first: Switch,
    pub second: Switch,
    pub third: Switch,
    ghost second_size: { length second.marks.items ≡ length first.marks.items },
    ghost third_size: { length third.marks.items ≡ length first.marks.items },
}

impl Switches {
    /// The switches of the three subjects.
    pub fn of(alloc: Global, f: &Function, g: &Graph) -> Result<Switches, Exhausted>
        ensures { IfOk result (λ s. length s.first.marks.items ≡ item_count g.now) }
    {
        Ok(Switches {
            first: Switch::of(alloc, f, g, 0)?,
            second: Switch::of(alloc, f, g, 1)?,
            third: Switch::of(alloc, f, g, 2)?,
        })
    }
}

impl Family for Switches {
    ghost step_of = { λ s u state item. step_in mark_step state
        (slice_get (cond (u == 0) s.first.marks.items (cond (u == 1) s.second.marks.items s.third.marks.items)) item) };

    ghost subject_count = { λ _. 3 };

    ghost state_count = { λ _. 2 };

    ghost item_count = { λ s. length s.first.marks.items };

    fn subjects(&self) -> usize {
        3
    }

    fn states(&self) -> u8 {
        2
    }

    fn items(&self) -> usize {
        self.first.items()
    }

    fn step(&self, subject: usize, state: u8, item: usize) -> Step {
        match subject {
            0 => self.first.step(state, item),
            1 => self.second.step(state, item),
            _ => self.third.step(state, item),
        }
    }
}

impl MoveAll for Switches {
    fn move_all(&self, width: usize, item: usize, bundle: &mut [u64], bad: &mut [u64]) {
        turn_touched(self, &[0, 1, 2], width, item, bundle, bad);
    }
}
