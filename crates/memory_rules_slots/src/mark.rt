//! What an item does to one of two slots, and the five states of the two.

ghost use Rattle.std.specs.Prelude.{◌≡◌, ◌<◌};
ghost use Rattle.reach_engine.specs.inner.Run.{StaysBelow};
ghost use Rattle.memory_rules_slots.specs.inner.Automaton.{order_step};
ghost use Rattle.memory_rules_slots.specs.Marks as marks;
ghost use Rattle.memory_rules_slots.specs.Marks.{pair_mark};

use memory_rules_accesses::Access;
use reach_engine::Step;
use sil_ast::ValueId;
use sil_rules::Rule;

/// One of two slots is allocated or deallocated.
#[derive(Clone, Copy, Debug, PartialEq, Eq)]
pub enum SlotMark {
    FirstIn,
    FirstOut,
    SecondIn,
    SecondOut,
}

fn one_of(
    first: ValueId,
    second: ValueId,
    value: ValueId,
    one: SlotMark,
    other: SlotMark,
) -> Option<SlotMark>
    ensures { result ≡ marks.one_of first second value one other }
{
    if value.0 == first.0 {
        Some(one)
    } else if value.0 == second.0 {
        Some(other)
    } else {
        None
    }
}

/// What an access means to two slots.
pub fn mark_of(first: ValueId, second: ValueId, access: &Access) -> Option<SlotMark>
    ensures { result ≡ pair_mark first second access.now }
{
    match *access {
        Access::Allocates(value) => {
            one_of(first, second, value, SlotMark::FirstIn, SlotMark::SecondIn)
        }
        Access::Deallocates(value) => {
            one_of(
                first,
                second,
                value,
                SlotMark::FirstOut,
                SlotMark::SecondOut,
            )
        }
        _ => None,
    }
}

/// One mark, in state 0 where neither slot is allocated, 1 where the first is, 2 where the second is, and where both are 3 if the second is
/// the later one and else 4. A break has the index of the rule on the order of slots.
pub fn step(state: u8, mark: SlotMark) -> Step
    requires { state < 5 }
    ensures step { result ≡ order_step state mark }
    ensures stays { StaysBelow 5 result }
{
    match (mark, state) {
        (SlotMark::FirstIn, 0 | 1) => Step::Go(1),
        (SlotMark::FirstIn, 3) => Step::Go(3),
        (SlotMark::FirstIn, _) => Step::Go(4),
        (SlotMark::FirstOut, 0 | 1) => Step::Go(0),
        (SlotMark::FirstOut, 3) => Step::Bad(Rule::StackOrder.index()),
        (SlotMark::FirstOut, _) => Step::Go(2),
        (SlotMark::SecondIn, 0 | 2) => Step::Go(2),
        (SlotMark::SecondIn, 1 | 3) => Step::Go(3),
        (SlotMark::SecondIn, _) => Step::Go(4),
        (SlotMark::SecondOut, 0 | 2) => Step::Go(0),
        (SlotMark::SecondOut, _) => Step::Go(1),
    }
}
