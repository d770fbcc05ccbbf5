//! Builds the numbers of instructions.

ghost use Rattle.std.specs.Prelude.{◌≡◌, ◌≤◌};
ghost use Rattle.sil_grammar_values.specs.inner.RowMeaning.{element_of, number_by};
ghost use Rattle.sil_grammar_values.specs.Types.{width_of};

use instruction_table::Detail;
use sil_ast::TypeName;
use sil_grammar_tree::{literal, small_number};
use sil_rules::limits;

/// The bits of a literal of a type: those of a builtin integer, and 64 of any other type.
fn width_of(ty: &TypeName) -> u8
    ensures value { result ≡ width_of ty.now }
    ensures some { 1 ≤ result }
    ensures fits { result ≤ 64 }
{
    match ty {
        TypeName::Int(width) => {
            if 0 < *width && *width < 65 {
                *width
            } else {
                64
            }
        }
        _ => 64,
    }
}

/// The number of an element, from 0 on.
fn element_number(spelling: &[u8]) -> Option<i64>
    ensures { result ≡ element_of spelling.now }
{
    match small_number(spelling, (limits::ARGUMENTS - 1) as u16) {
        Some(number) => Some(i64::from(number)),
        None => None,
    }
}

/// The number of an instruction that has this type: a literal, or the number of an element.
pub(crate) fn number_by(detail: Detail, ty: &Option<TypeName>, spelling: &[u8]) -> Option<i64>
    ensures { result ≡ number_by detail ty.now spelling.now }
{
    match (detail, ty) {
        (Detail::Literal, Some(ty)) => literal(spelling, width_of(ty)),
        (Detail::Element, _) => element_number(spelling),
        _ => None,
    }
}
