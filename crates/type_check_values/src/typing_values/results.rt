//! Whether an instruction names as many results as its row gives.

ghost use Rattle.std.specs.Prelude.{◌≡◌, length, option_map};
ghost use Rattle.sil_types.specs.Typing.ResultCounts as spec;
ghost use Rattle.sil_types.specs.Typing.RowTypes.{MadeTypes};
ghost use Rattle.sil_types.specs.sil_types_declarations.TypeDefinitions.Declarations.{Declarations};
ghost use Rattle.type_check_values.specs.TypingValues.inner.Given.{given_count};

use instruction_table::{Results, results_of};
use sil_ast::Inst;

/// As many as the row gives; where what it asks of types isn't kept, there is no number to compare with.
fn is_count_of(given: Option<usize>, count: usize) -> bool
    ensures { (made : MadeTypes) → given ≡ option_map length made → result ≡ spec.is_count_of made count }
{
    match given {
        Some(given) => given == count,
        None => true,
    }
}

/// Whether the instruction breaks 202: the number of result names isn't that of the row. `given` is how many results its row gives.
pub fn has_wrong_result_count(given: Option<usize>, inst: &Inst) -> bool
    ensures { (d : Declarations) → given ≡ given_count d inst.now → result ≡ spec.has_wrong_result_count d inst.now }
{
    let count = inst.results.len();
    match results_of(inst.op) {
        Results::NoResult => count != 0,
        Results::OneResult => count != 1,
        Results::ResultList => !is_count_of(given, count),
    }
}
