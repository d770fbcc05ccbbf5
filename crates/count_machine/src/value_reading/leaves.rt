//! How many leaves a type has, and some leaves in two parts.

ghost use Rattle.std.specs.Prelude.{◌≡◌, ◌≤◌, take, drop};
ghost use Rattle.sil_types_declarations.specs.TypeDefinitions.Measures.{leaves_of};

use holder_model_values::Leaf;
use sil_ast::TypeName;
use sil_rules::limits::LEAVES;
use sil_types::TypeTable;

/// How many leaves a type has, if it is within the limit on them.
pub(crate) fn leaf_count(table: &TypeTable, ty: &TypeName) -> usize
    ensures { leaves_of table.now ty.now ≤ LEAVES → result ≡ leaves_of table.now ty.now }
{
    match table.leaves_within(ty) {
        Some(count) => count as usize,
        None => 0,
    }
}

/// The first leaves, so many of them.
pub(crate) fn first_leaves(leaves: &[Leaf], count: usize) -> &[Leaf]
    ensures { result.now ≡ take count leaves.now }
{
    &leaves[..count.min(leaves.len())]
}

/// The leaves behind so many.
pub(crate) fn leaves_behind(leaves: &[Leaf], count: usize) -> &[Leaf]
    ensures { result.now ≡ drop count leaves.now }
{
    &leaves[count.min(leaves.len())..]
}
