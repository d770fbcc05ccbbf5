//! The functions that values stand for: the result of a `function_ref` for the function that it names, and no name behind it.

ghost use Rattle.std.specs.Prelude.{◌≡◌, OnOk};
ghost use Rattle.sil_types.specs.Typing.Values as values;
ghost use Rattle.sil_types.specs.Typing.Values.{arg_functions, result_functions};

use numbered_form::{ValueTable, add_values, push_times};
use sil_ast::{BlockArg, Exhausted, FuncId, Function, Inst};

struct ValueFunctions;

impl<'f> ValueTable<'f> for ValueFunctions {
    type Table = Vec<Option<FuncId>>;

    type Row = Option<FuncId>;

    ghost rows = { λ table. table.items };

    ghost arg_rows = { λ of. arg_functions };

    ghost result_rows = { λ of. result_functions };

    fn add_args(
        &self,
        functions: &mut Vec<Option<FuncId>>,
        _number: usize,
        args: &'f [BlockArg],
    ) -> Result<(), Exhausted> {
        push_times(functions, args.len(), None)
    }

    fn add_results(
        &self,
        functions: &mut Vec<Option<FuncId>>,
        inst: &'f Inst,
    ) -> Result<(), Exhausted> {
        match inst.results.as_slice() {
            [] => Ok(()),
            [_, others @ ..] => {
                functions.push(inst.function)?;
                push_times(functions, others.len(), None)
            }
        }
    }
}

/// Makes of a list, in its memory, the functions that a function's values stand for, by the numbers of the values. Most values
/// stand for none.
pub fn find_value_functions(
    functions: &mut Vec<Option<FuncId>>,
    f: &Function,
) -> Result<(), Exhausted>
    ensures { OnOk result (functions.new.items ≡ values.value_functions f.now) }
{
    functions.clear();
    add_values(&ValueFunctions, functions, f)
}
