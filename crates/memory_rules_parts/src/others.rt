//! The other value of a fault: of a loan the root at which it is disturbed.

ghost use Rattle.std.specs.Prelude.{◌≡◌, find, option_and_then};
ghost use Rattle.memory_rules_parts.specs.Loans as loans;
ghost use Rattle.memory_rules_parts.specs.Shown.{first_root};

use crate::loans::{disturbs, root_of};
use crate::part::Part;
use memory_rules_accesses::{Access, Memory};
use sil_ast::ValueId;

/// The root of the first access that disturbs a loan of what is at the address.
fn disturbing_root(m: &Memory, address: ValueId, accesses: &[Access]) -> Option<ValueId>
    ensures { result ≡ option_and_then (loans.root_of m.now) (find (loans.disturbs m.now address) accesses.now) }
{
    for access in accesses {
        if disturbs(m, address, *access) {
            return root_of(m, *access);
        }
    }
    None
}

/// The other value of a fault of the part, at an item that does this.
pub(crate) fn other_of(m: &Memory, part: Part, accesses: &[Access]) -> Option<ValueId>
    ensures { result ≡ first_root m.now part accesses.now }
{
    match part {
        Part::Lent { address, .. } => disturbing_root(m, address, accesses),
        Part::Contents { .. } | Part::Allocation { .. } | Part::Building { .. } => None,
        Part::InScope { .. } | Part::InSlot { .. } => None,
    }
}
