//! Slots by themselves: rules 604 and 605.

ghost use Rattle.std.specs.Prelude.{◌≡◌};
ghost use Rattle.memory_rules_parts.specs.Allocations as allocations;

use crate::switch::{is_same, when};
use memory_rules_accesses::Access;
use reach_engine_marks::Mark;
use sil_ast::ValueId;
use sil_rules::Rule;

/// What an access means to a slot.
pub(crate) fn allocation_mark(slot: ValueId, access: Access) -> Option<Mark>
    ensures { result ≡ allocations.allocation_mark slot access }
{
    match access {
        Access::Ends(_) | Access::Begins(_) | Access::Given(_, _) | Access::Does(_) => None,
        Access::Mentions { .. } => None,
        Access::Allocates(v) => when(is_same(v, slot), Mark::needs_off_turns_on(Rule::StackOrder)),
        Access::Deallocates(v) => when(
            is_same(v, slot),
            Mark::needs_on_turns_off(Rule::StackOrder),
        ),
    }
}

/// At a `return` no slot is allocated.
pub(crate) fn left_allocated_mark() -> Option<Mark>
    ensures { result ≡ allocations.left_allocated_mark }
{
    Some(Mark::needs_off(Rule::StackLeft))
}
