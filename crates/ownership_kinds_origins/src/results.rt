//! How the results of instructions come by their kinds and bases.

ghost use Rattle.std.specs.Prelude.{◌≡◌, ◌++◌, [], IfOk, OnOk, map, length, option_map, unwrap_or, true};
ghost use Rattle.std.specs.List.{range_with_len};
ghost use Rattle.sil_types.specs.Typing.RowTypes as rows;
ghost use Rattle.type_check_rows.specs.inner.Views.{made_told};
ghost use Rattle.ownership_kinds_origins.specs.Origins as spec;
ghost use Rattle.ownership_kinds_origins.specs.Origins.{result_definition_by, result_definitions};
ghost use Rattle.numbered_form.specs.ValueTables.FirstValue.{value_of};
ghost use Rattle.ownership_kinds_origins.specs.inner.Results.{asks_type, definition_by_types};

use crate::operands::operand_values;
use crate::trivial::is_trivial_result;
use instruction_table::{ResultKind, result_kind_of};
use ownership_kinds_chains::{Definition, Origin};
use sil_ast::{Exhausted, Inst, List, Operand, ShortList, ValueId};
use sil_types::TypeTable;
use std::alloc::Global;
use type_check_rows::{Made, row_types};

/// A value of a trivial type has no kind to speak of.
pub(crate) fn unless_trivial(trivial: bool, origin: Origin) -> Origin
    ensures { result ≡ spec.unless_trivial trivial origin }
{
    if trivial { Origin::Plain } else { origin }
}

fn result_origin(kind: ResultKind, trivial: bool) -> Origin
    ensures { result ≡ spec.result_origin kind trivial }
{
    match kind {
        ResultKind::NoneResult => Origin::Plain,
        ResultKind::OwnedResult => unless_trivial(trivial, Origin::Owned),
        ResultKind::ScopeResult => unless_trivial(trivial, Origin::Lender),
        ResultKind::AddressResult => Origin::Address,
        ResultKind::ForwardedResult => unless_trivial(trivial, Origin::Forward),
        ResultKind::OperandResult => unless_trivial(trivial, Origin::Same),
    }
}

/// Whether a result of this kind is another one where its type is trivial.
fn asks_type(kind: ResultKind) -> bool
    ensures { result ≡ asks_type kind }
{
    match kind {
        ResultKind::NoneResult => false,
        ResultKind::OwnedResult => true,
        ResultKind::ScopeResult => true,
        ResultKind::AddressResult => false,
        ResultKind::ForwardedResult => true,
        ResultKind::OperandResult => true,
    }
}

/// The values that a chain goes on to from a result of this kind.
fn chain_operands(
    alloc: Global,
    kind: ResultKind,
    operands: &[Operand],
) -> Result<ShortList<ValueId, 4>, Exhausted>
    ensures { IfOk result (λ values. values ≡ spec.chain_operands kind (map value_of operands.now)) }
{
    match kind {
        ResultKind::NoneResult => Ok(ShortList::new(alloc)),
        ResultKind::OwnedResult => Ok(ShortList::new(alloc)),
        ResultKind::ScopeResult => Ok(ShortList::new(alloc)),
        ResultKind::AddressResult => operand_values(alloc, operands),
        ResultKind::ForwardedResult => operand_values(alloc, operands),
        ResultKind::OperandResult => operand_values(alloc, operands),
    }
}

fn result_definition(
    alloc: Global,
    kind: ResultKind,
    inst: &Inst,
    trivial: bool,
) -> Result<Definition, Exhausted>
    ensures { IfOk result (λ def. def ≡ result_definition_by kind inst.now trivial) }
{
    Ok(Definition {
        origin: result_origin(kind, trivial),
        operands: chain_operands(alloc, kind, inst.operands.as_slice())?,
    })
}

/// What the row gives, where a result of this kind asks for its type.
fn made_where_asked<'a>(table: &'a TypeTable, inst: &'a Inst, kind: ResultKind) -> Option<Made<'a>>
    ensures { asks_type kind ≡ true → option_map made_told result ≡ rows.row_types table.now inst.now }
{
    if asks_type(kind) {
        row_types(table, inst)
    } else {
        None
    }
}

/// Adds the definitions of all results, of the types that `made` tells.
fn add_made(
    alloc: Global,
    table: &TypeTable,
    inst: &Inst,
    made: Option<Made>,
    defs: &mut List<Definition>,
) -> Result<(), Exhausted>
    ensures { OnOk result (defs.new ≡ defs.old ++
        map (definition_by_types table.now inst.now (unwrap_or (option_map made_told made.entry) [])) (range_with_len 0 (length inst.now.results))) }
{
    let kind = result_kind_of(inst.op);
    for k in 0..inst.results.len() {
        let trivial = is_trivial_result(table, made, k);
        defs.push(result_definition(alloc, kind, inst, trivial)?)?;
    }
    Ok(())
}

/// Adds the definitions of an instruction's results.
pub(crate) fn add_results(
    alloc: Global,
    table: &TypeTable,
    inst: &Inst,
    defs: &mut List<Definition>,
) -> Result<(), Exhausted>
    ensures { OnOk result (defs.new ≡ defs.old ++ result_definitions table.now inst.now) }
{
    let made = made_where_asked(table, inst, result_kind_of(inst.op));
    add_made(alloc, table, inst, made, defs)
}
