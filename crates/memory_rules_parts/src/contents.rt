//! What a cell holds: rules 601, 602, 603 and 609.

ghost use Rattle.std.specs.Prelude.{◌≡◌, Some};
ghost use Rattle.std.specs.Option.{option_copied};
ghost use Rattle.memory_rules_parts.specs.Contents as contents;

use crate::switch::{is_same, when};
use argument_conventions::Content;
use memory_rules_accesses::{Access, Cell, Location, Memory, Operation};
use reach_engine_marks::Mark;
use sil_rules::Rule;

/// Whether the operation counts at a part: one that the location lacks counts like the same one on the whole.
fn counts_at_part(m: &Memory, location: &Location, operation: Operation) -> bool
    ensures { result ≡ contents.counts_at_part m.now location.now operation }
{
    m.has_operation(location, operation) && location.is_part()
}

fn same_field(a: Option<usize>, b: Option<usize>) -> bool
    ensures { result ≡ contents.same_field a b }
{
    match (a, b) {
        (None, None) => true,
        (Some(k), Some(n)) => k == n,
        _ => false,
    }
}

/// Whether it is one cell.
fn same_cell(a: Cell, b: Cell) -> bool
    ensures { result ≡ contents.same_cell a b }
{
    is_same(a.subject, b.subject) && same_field(a.field, b.field)
}

/// What a call needs and leaves by its row. Where the type is trivial, empty is met by any state, and nothing is emptied.
fn handed_mark(trivial: bool, before: Content, after: Content) -> Mark
    ensures { result ≡ contents.handed_mark trivial before after }
{
    match (before, after, trivial) {
        (Content::Full, Content::Full, _) => Mark::needs_on(Rule::LoadUninitialised),
        (Content::Full, Content::Empty, false) => Mark::needs_on_turns_off(Rule::LoadUninitialised),
        (Content::Full, Content::Empty, true) => Mark::needs_on(Rule::LoadUninitialised),
        (Content::Empty, Content::Full, false) => Mark::needs_off_turns_on(Rule::InitTwice),
        (Content::Empty, Content::Full, true) => Mark::turns_on(Rule::InitTwice),
        (Content::Empty, Content::Empty, false) => Mark::needs_off(Rule::InitTwice),
        (Content::Empty, Content::Empty, true) => Mark {
            needs: None,
            turns: None,
            rule: Rule::InitTwice,
        },
    }
}

/// A first write fills the empty cell, a take empties the full one, and a call does as its row says. A trivial store to the whole fills it,
/// whatever it was; all else needs it full.
fn operation_mark(trivial: bool, part: bool, operation: Operation) -> Mark
    ensures { result ≡ contents.operation_mark trivial part operation }
{
    match operation {
        Operation::FirstWrite => Mark::needs_off_turns_on(Rule::InitTwice),
        Operation::Take => Mark::needs_on_turns_off(Rule::LoadUninitialised),
        Operation::TrivialStore => {
            if part {
                Mark::needs_on(Rule::LoadUninitialised)
            } else {
                Mark::turns_on(Rule::LoadUninitialised)
            }
        }
        Operation::Read | Operation::Lend => Mark::needs_on(Rule::LoadUninitialised),
        Operation::Write => Mark::needs_on(Rule::LoadUninitialised),
        Operation::Handed(row) => handed_mark(trivial, row.before, row.after),
    }
}

/// An operation means something to the cell that is at the root of its location.
pub(crate) fn at_location(
    m: &Memory,
    cell: Cell,
    operation: Operation,
    location: Option<&Location>,
) -> Option<Mark>
    ensures { result ≡ contents.at_location m.now cell operation (option_copied location.entry) }
{
    match location {
        None => None,
        Some(l) => when(
            same_cell(m.cell(l.root), cell),
            operation_mark(
                m.is_trivial_at(l.root),
                counts_at_part(m, l, operation),
                operation,
            ),
        ),
    }
}

/// A slot is empty when it is deallocated, unless it is of a trivial type, and it is behind that.
fn deallocation_mark(trivial: bool) -> Mark
    ensures { result ≡ contents.deallocation_mark trivial }
{
    if trivial {
        Mark::turns_off(Rule::LeftInitialised)
    } else {
        Mark::needs_off(Rule::LeftInitialised)
    }
}

fn given_mark(content: Content) -> Mark
    ensures { result ≡ contents.given_mark content }
{
    match content {
        Content::Empty => Mark::turns_off(Rule::LoadUninitialised),
        Content::Full => Mark::turns_on(Rule::LoadUninitialised),
    }
}

/// What an access means to the contents of a cell.
pub(crate) fn contents_mark(m: &Memory, cell: Cell, trivial: bool, access: Access) -> Option<Mark>
    ensures { result ≡ contents.contents_mark m.now cell trivial access }
{
    match access {
        Access::Ends(_) | Access::Begins(_) => None,
        Access::Mentions { .. } => None,
        Access::Allocates(v) => when(
            is_same(v, cell.subject),
            Mark::turns_off(Rule::LoadUninitialised),
        ),
        Access::Deallocates(v) => when(
            m.is_slot(v) && is_same(v, cell.subject),
            deallocation_mark(trivial),
        ),
        Access::Given(v, content) => when(is_same(v, cell.subject), given_mark(content)),
        Access::Does(x) => at_location(m, cell, x.operation, m.location(x.address)),
    }
}

/// At a `return` an argument's location is as its row says.
pub(crate) fn left_mark(trivial: bool, left: Option<Content>) -> Option<Mark>
    ensures { result ≡ contents.left_mark trivial left }
{
    match left {
        None => None,
        Some(Content::Full) => Some(Mark::needs_on(Rule::InoutLeftUninitialised)),
        Some(Content::Empty) => when(!trivial, Mark::needs_off(Rule::LeftInitialised)),
    }
}
