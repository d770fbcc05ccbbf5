//! Loans of what locations hold: rule 606.

ghost use Rattle.std.specs.Prelude.{◌≡◌};
ghost use Rattle.std.specs.Option.{option_copied};
ghost use Rattle.memory_rules_parts.specs.Loans as loans;

use crate::switch::{is_same, when};
use memory_rules_accesses::{Access, Location, Memory, Operation};
use reach_engine_marks::Mark;
use sil_ast::ValueId;
use sil_rules::Rule;

/// Whether the operation, at a part of a root or at the whole, writes what may be lent.
/// A first write doesn't, nor does a trivial store to the whole.
pub(crate) fn writes(part: bool, operation: Operation) -> bool
    ensures { result ≡ loans.writes part operation }
{
    match operation {
        Operation::FirstWrite | Operation::Read | Operation::Lend => false,
        Operation::Write | Operation::Take => true,
        Operation::Handed(row) => !row.only_reads(),
        Operation::TrivialStore => part,
    }
}

/// Whether an operation writes what may be lent at a location.
fn writes_at(location: Option<&Location>, operation: Operation) -> bool
    ensures { result ≡ loans.writes_at (option_copied location.entry) operation }
{
    match location {
        None => false,
        Some(l) => writes(l.is_part(), operation),
    }
}

/// Whether an access would write into what is lent at the address, or deallocate it.
pub(crate) fn disturbs(m: &Memory, address: ValueId, access: Access) -> bool
    ensures { result ≡ loans.disturbs m.now address access }
{
    match access {
        Access::Ends(_) | Access::Begins(_) | Access::Allocates(_) | Access::Given(_, _) => false,
        Access::Mentions { .. } => false,
        Access::Deallocates(v) => m.do_overlap(v, address),
        Access::Does(x) => {
            writes_at(m.location(x.address), x.operation) && m.do_overlap(x.address, address)
        }
    }
}

/// What an access means to a loan.
pub(crate) fn loan_mark(
    m: &Memory,
    scope: ValueId,
    address: ValueId,
    access: Access,
) -> Option<Mark>
    ensures { result ≡ loans.loan_mark m.now scope address access }
{
    match access {
        Access::Ends(v) => when(is_same(v, scope), Mark::turns_off(Rule::WriteWhileBorrowed)),
        Access::Begins(v) => when(is_same(v, scope), Mark::turns_on(Rule::WriteWhileBorrowed)),
        Access::Allocates(_) | Access::Given(_, _) => None,
        Access::Mentions { .. } => None,
        Access::Deallocates(_) | Access::Does(_) => {
            when(
                disturbs(m, address, access),
                Mark::needs_off(Rule::WriteWhileBorrowed),
            )
        }
    }
}

fn shown_root(m: &Memory, location: Option<&Location>) -> Option<ValueId>
    ensures { result ≡ loans.shown_root m.now (option_copied location.entry) }
{
    match location {
        None => None,
        Some(l) => Some(m.cell(l.root).subject),
    }
}

/// The root at which an access is.
pub(crate) fn root_of(m: &Memory, access: Access) -> Option<ValueId>
    ensures { result ≡ loans.root_of m.now access }
{
    match access {
        Access::Ends(_) | Access::Begins(_) | Access::Allocates(_) | Access::Given(_, _) => None,
        Access::Mentions { .. } => None,
        Access::Deallocates(v) => shown_root(m, m.location(v)),
        Access::Does(x) => shown_root(m, m.location(x.address)),
    }
}
