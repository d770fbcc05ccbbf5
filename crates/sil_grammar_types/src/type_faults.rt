//! The faults of types that become too deep, and of tuples that become too long.

ghost use Rattle.std.specs.Prelude.{◌≡◌};
ghost use Rattle.sil_grammar_values.specs.inner.PartFaults as said;

use sil_ast::Place;
use sil_grammar_tree::{Fault, earlier, limit_fault, passed};
use sil_grammar_values::faults::too_many_arguments;
use sil_grammar_values::prepended::Prepended;
use sil_grammar_values::written_types::TypeList;
use sil_rules::{LimitWord, limits};

/// The fault of a type that is one level deeper than one of this depth.
pub(crate) fn too_deep(depth: u32, last: Place) -> Option<Fault>
    ensures { result ≡ said.too_deep depth last }
{
    if depth == limits::DEPTH {
        Some(limit_fault(LimitWord::Depth, last))
    } else {
        None
    }
}

/// The fault of a type of this depth with some `?` behind it.
pub(crate) fn too_many_questions(depth: u32, questions: &Prepended<Place>) -> Option<Fault>
    ensures { result ≡ said.too_many_questions depth questions.now }
{
    if limits::DEPTH < depth {
        None
    } else {
        passed(
            LimitWord::Depth,
            questions.get((limits::DEPTH - depth) as usize).copied(),
        )
    }
}

/// The fault of the types between two parentheses, of which one alone is no tuple.
fn too_deep_among(list: &TypeList, last: Place) -> Option<Fault>
    ensures { result ≡ said.too_deep_among list.now.types list.now.depth last }
{
    if list.types.len() == 1 {
        None
    } else {
        too_deep(list.depth, last)
    }
}

/// The fault of a tuple.
pub(crate) fn tuple_fault(list: &TypeList, last: Place) -> Option<Fault>
    ensures { result ≡ said.tuple_fault list.now last }
{
    earlier(too_many_arguments(&list.firsts), too_deep_among(list, last))
}
