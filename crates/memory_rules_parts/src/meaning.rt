//! What accesses and returns mean to a part.

ghost use Rattle.std.specs.Prelude.{◌≡◌};
ghost use Rattle.ownership_kinds_chains.specs.OwnershipMarks.Known.{facts_of};
ghost use Rattle.memory_rules_parts.specs.Parts as parts;

use crate::addresses::{in_scope_mark, in_slot_mark};
use crate::allocations::{allocation_mark, left_allocated_mark};
use crate::building::building_mark;
use crate::contents::{contents_mark, left_mark};
use crate::loans::loan_mark;
use crate::part::Part;
use memory_rules_accesses::{Access, Memory};
use ownership_kinds_chains::Kinds;
use reach_engine_marks::Mark;
use sil_ast::ValueId;

/// What an access means to the part.
pub(crate) fn means(m: &Memory, k: &Kinds, part: Part, access: Access) -> Option<Mark>
    ensures { result ≡ parts.means m.now (facts_of k.now) part access }
{
    match part {
        Part::Contents {
            cell,
            trivial,
            left: _,
        } => contents_mark(m, cell, trivial, access),
        Part::Allocation { slot } => allocation_mark(slot, access),
        Part::Lent { scope, address } => loan_mark(m, scope, address, access),
        Part::Building { object, field } => building_mark(m, k, object, field, access),
        Part::InScope { address, scope } => in_scope_mark(address, scope, access),
        Part::InSlot { address, slot } => in_slot_mark(address, slot, access),
    }
}

/// What a `return` means to the part.
pub(crate) fn at_return(part: Part) -> Option<Mark>
    ensures { result ≡ parts.at_return part }
{
    match part {
        Part::Contents { trivial, left, .. } => left_mark(trivial, left),
        Part::Allocation { .. } => left_allocated_mark(),
        Part::Lent { .. } | Part::Building { .. } | Part::InScope { .. } | Part::InSlot { .. } => {
            None
        }
    }
}

/// The value whose part it is.
pub(crate) fn subject_of(part: Part) -> ValueId
    ensures { result ≡ parts.subject_of part }
{
    match part {
        Part::Contents { cell, .. } => cell.subject,
        Part::Allocation { slot } => slot,
        Part::Lent { scope, .. } => scope,
        Part::Building { object, .. } => object,
        Part::InScope { address, .. } | Part::InSlot { address, .. } => address,
    }
}
