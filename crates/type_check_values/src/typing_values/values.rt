//! The types of a function's values, by their numbers, and how many results the row of each instruction gives. For types a row is asked
//! where its instruction has results.

ghost use Rattle.std.specs.Prelude.{◌≡◌, ◌++◌, OnOk, [], ◌∷◌, length, map, option_map, slice_get, unwrap_or};
ghost use Rattle.std.specs.List.{range_with_len};
ghost use Rattle.numbered_form.specs.Insts.{insts_in};
ghost use Rattle.type_check_rows.specs.inner.Views.{made_told, view_told};
ghost use Rattle.sil_types.specs.Typing.Values as values;
ghost use Rattle.sil_types.specs.Typing.Values.{arg_has, arg_types, result_types};
ghost use Rattle.type_check_values.specs.TypingValues.inner.Given.{given_count, given_counts, no_counts};
ghost use Rattle.type_check_values.specs.TypingValues.inner.Told.{types_told};

use numbered_form::{ValueTable, add_values};
use sil_ast::{BlockArg, Exhausted, Function, Inst, TypeName};
use sil_types::TypeTable;
use std::alloc::Global;
use type_check_rows::{Made, TypeView, row_types};

/// What the rows of a function's instructions give.
#[derive(Drop)]
pub struct GivenTypes<'a> {
    /// By value its type. A result that its row doesn't give has none.
    pub types: Vec<Option<TypeView<'a>>>,
    /// By instruction, in the order of the text, how many results its row gives, or none where what it asks of types isn't kept.
    pub counts: Vec<Option<usize>>,
}

/// The type of the `k`-th result, where the row gives one.
fn result_type<'a>(made: &Option<Made<'a>>, k: usize) -> Option<TypeView<'a>>
    ensures { option_map view_told result ≡ slice_get (unwrap_or (option_map made_told made.now) []) k }
{
    match made {
        Some(made) => made.get(k),
        None => None,
    }
}

/// How many results the row gives.
fn count_of(made: &Option<Made<'_>>) -> Option<usize>
    ensures { result ≡ option_map length (option_map made_told made.now) }
{
    match made {
        Some(made) => Some(made.len()),
        None => None,
    }
}

/// Adds the types of some results of what a row gives.
fn add_made<'a>(
    types: &mut Vec<Option<TypeView<'a>>>,
    made: &Option<Made<'a>>,
    count: usize,
) -> Result<(), Exhausted>
    ensures { OnOk result (types_told types.new.items ≡ types_told types.old.items ++
        map (slice_get (unwrap_or (option_map made_told made.now) [])) (range_with_len 0 count)) }
{
    for k in 0..count {
        types.push(result_type(made, k))?;
    }
    Ok(())
}

/// Adds the types of an instruction's results.
fn add_results<'a>(
    types: &mut Vec<Option<TypeView<'a>>>,
    table: &'a TypeTable,
    inst: &'a Inst,
) -> Result<(), Exhausted>
    ensures { OnOk result (types_told types.new.items ≡ types_told types.old.items ++ result_types table.now inst.now) }
{
    let count = inst.results.len();
    if count == 0 {
        return Ok(());
    }
    add_made(types, &row_types(table, inst), count)
}

/// Adds the types of a block's arguments.
fn add_args<'a>(
    types: &mut Vec<Option<TypeView<'a>>>,
    args: &'a [BlockArg],
) -> Result<(), Exhausted>
    ensures { OnOk result (types_told types.new.items ≡ types_told types.old.items ++ map arg_has args.now) }
{
    for arg in args {
        types.push(Some(TypeView::Written(&arg.ty)))?;
    }
    Ok(())
}

/// The types of values, by what a module declares.
#[derive(Drop)]
struct ValueTypes<'a> {
    table: &'a TypeTable,
}

impl<'a> ValueTable<'a> for ValueTypes<'a> {
    type Table = Vec<Option<TypeView<'a>>>;

    type Row = Option<TypeName>;

    ghost rows = { λ types. types_told types.items };

    ghost arg_rows = { λ of. arg_types };

    ghost result_rows = { λ of. result_types of.table.now };

    fn add_args(
        &self,
        types: &mut Vec<Option<TypeView<'a>>>,
        _number: usize,
        args: &'a [BlockArg],
    ) -> Result<(), Exhausted> {
        add_args(types, args)
    }

    fn add_results(
        &self,
        types: &mut Vec<Option<TypeView<'a>>>,
        inst: &'a Inst,
    ) -> Result<(), Exhausted> {
        add_results(types, self.table, inst)
    }
}

/// How many results the rows of instructions give: one number for each instruction, whatever names it has.
#[derive(Drop)]
struct RowCounts<'a> {
    table: &'a TypeTable,
}

impl<'a> ValueTable<'a> for RowCounts<'a> {
    type Table = Vec<Option<usize>>;

    type Row = Option<usize>;

    ghost rows = { λ counts. counts.items };

    ghost arg_rows = { λ of. no_counts };

    ghost result_rows = { λ of. given_counts of.table.now };

    fn add_args(
        &self,
        _counts: &mut Vec<Option<usize>>,
        _number: usize,
        _args: &'a [BlockArg],
    ) -> Result<(), Exhausted> {
        Ok(())
    }

    fn add_results(
        &self,
        counts: &mut Vec<Option<usize>>,
        inst: &'a Inst,
    ) -> Result<(), Exhausted> {
        counts.push(count_of(&row_types(self.table, inst)))?;
        Ok(())
    }
}

/// Makes of a list, in its memory, the types of a function's values, by their numbers. A result that its row doesn't give has none.
pub fn find_types<'a>(
    types: &mut Vec<Option<TypeView<'a>>>,
    table: &'a TypeTable,
    f: &'a Function,
) -> Result<(), Exhausted>
    ensures { OnOk result (types_told types.new.items ≡ values.value_types table.now f.now) }
{
    types.clear();
    add_values(&ValueTypes { table }, types, f)
}

/// Makes of a list, in its memory, how many results the row of each instruction gives.
fn find_counts<'a>(
    counts: &mut Vec<Option<usize>>,
    table: &'a TypeTable,
    f: &'a Function,
) -> Result<(), Exhausted>
    ensures { OnOk result (counts.new.items ≡ map (given_count table.now) (insts_in f.now.blocks)) }
{
    counts.clear();
    add_values(&RowCounts { table }, counts, f)
}

impl<'a> GivenTypes<'a> {
    /// Those of no function.
    pub fn new(alloc: Global) -> GivenTypes<'a> {
        GivenTypes {
            types: Vec::new(alloc),
            counts: Vec::new(alloc),
        }
    }
}

/// Makes of `given`, in its memory, what the rows of a function's instructions give: the types of the function's values, by their
/// numbers, and how many results each instruction's row gives.
pub fn find_value_types<'a>(
    given: &mut GivenTypes<'a>,
    table: &'a TypeTable,
    f: &'a Function,
) -> Result<(), Exhausted>
    ensures types { OnOk result (types_told given.new.types.items ≡ values.value_types table.now f.now) }
    ensures counts { OnOk result (given.new.counts.items ≡ map (given_count table.now) (insts_in f.now.blocks)) }
{
    find_types(&mut given.types, table, f)?;
    find_counts(&mut given.counts, table, f)
}
