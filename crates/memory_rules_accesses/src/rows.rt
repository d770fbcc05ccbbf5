//! Which operations a location has.

ghost use Rattle.std.specs.Prelude.{◌≡◌};
ghost use Rattle.memory_rules_accesses.specs.Rows as rows;

use crate::access::Operation;

/// Whether a slot, an argument or a part of one has the operation.
pub(crate) fn slot_has(part: bool, operation: Operation) -> bool
    ensures { result ≡ rows.slot_has part operation }
{
    match operation {
        Operation::FirstWrite | Operation::Take => !part,
        Operation::Handed(row) => !part || row.keeps_full(),
        Operation::Read | Operation::Lend | Operation::Write | Operation::TrivialStore => true,
    }
}

/// Whether an argument that may be shared, or a part of one, has the operation.
pub(crate) fn shared_has(operation: Operation) -> bool
    ensures { result ≡ rows.shared_has operation }
{
    match operation {
        Operation::Read | Operation::Lend => true,
        Operation::Handed(row) => row.only_reads(),
        Operation::FirstWrite | Operation::Write | Operation::TrivialStore | Operation::Take =>
            false,
    }
}

/// Whether a field of an object or a part of one has the operation.
pub(crate) fn field_has(part: bool, building: bool, operation: Operation) -> bool
    ensures { result ≡ rows.field_has part building operation }
{
    match operation {
        Operation::FirstWrite => building && !part,
        Operation::Read | Operation::Write | Operation::TrivialStore => true,
        Operation::Lend | Operation::Handed(_) | Operation::Take => false,
    }
}
