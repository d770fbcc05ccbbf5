//! Addresses, and what they lie in: rule 610.

ghost use Rattle.std.specs.Prelude.{◌≡◌};
ghost use Rattle.memory_rules_parts.specs.Addresses as addresses;

use crate::switch::{is_same, when};
use memory_rules_accesses::Access;
use reach_engine_marks::Mark;
use sil_ast::ValueId;
use sil_rules::Rule;

/// The address is an operand.
fn address_mark(address: ValueId, value: ValueId) -> Option<Mark>
    ensures { result ≡ addresses.address_mark address value }
{
    when(
        is_same(value, address),
        Mark::needs_on(Rule::AddressOutsideScope),
    )
}

/// What an access means to an address and a scope that it lies in.
pub(crate) fn in_scope_mark(address: ValueId, scope: ValueId, access: Access) -> Option<Mark>
    ensures { result ≡ addresses.in_scope_mark address scope access }
{
    match access {
        Access::Ends(v) => when(
            is_same(v, scope),
            Mark::turns_off(Rule::AddressOutsideScope),
        ),
        Access::Begins(v) => when(is_same(v, scope), Mark::turns_on(Rule::AddressOutsideScope)),
        Access::Mentions { value, .. } => address_mark(address, value),
        Access::Allocates(_) | Access::Deallocates(_) | Access::Given(_, _) | Access::Does(_) =>
            None,
    }
}

/// What an access means to an address and its slot.
pub(crate) fn in_slot_mark(address: ValueId, slot: ValueId, access: Access) -> Option<Mark>
    ensures { result ≡ addresses.in_slot_mark address slot access }
{
    match access {
        Access::Allocates(v) => when(is_same(v, slot), Mark::turns_on(Rule::AddressOutsideScope)),
        Access::Deallocates(v) => when(
            is_same(v, slot),
            Mark::turns_off(Rule::AddressOutsideScope),
        ),
        Access::Mentions { value, .. } => address_mark(address, value),
        Access::Ends(_) | Access::Begins(_) | Access::Given(_, _) | Access::Does(_) => None,
    }
}
