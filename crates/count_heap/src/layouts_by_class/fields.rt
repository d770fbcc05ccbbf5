//! How many leaves a field has.

ghost use Rattle.std.specs.Prelude.{◌≡◌, ◌≤◌, SomeIff};
ghost use Rattle.count_heap.specs.LayoutsByClass.ClassFields.{IsFieldInLimits, field_leaves};

use sil_ast::{Field, Storage};
use sil_rules::limits::LEAVES;
use sil_types::TypeTable;

/// How many leaves a field has, if it is within the limit on them.
fn leaves_of_field(table: &TypeTable, field: &Field) -> Option<u32>
    ensures { SomeIff result (field_leaves table.now field.now ≤ LEAVES) (field_leaves table.now field.now) }
{
    match field.storage {
        Storage::Strong => table.leaves_within(&field.ty),
        Storage::Weak => Some(1),
        Storage::Unowned => Some(1),
    }
}

/// How many leaves a field has that is within the limit on them.
pub(crate) fn count_of_field(table: &TypeTable, field: &Field) -> u32
    requires { IsFieldInLimits table.now field.now }
    ensures { result ≡ field_leaves table.now field.now }
{
    match leaves_of_field(table, field) {
        Some(count) => count,
        None => unreachable!(),
    }
}
