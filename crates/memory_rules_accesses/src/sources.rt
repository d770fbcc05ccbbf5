//! What each value of a function is to memory, in one pass over it.

ghost use Rattle.std.specs.Prelude.{◌≡◌, ◌++◌, IfOk, OnOk, option_map};
ghost use Rattle.sil_ast.specs.declared.type_name.TypeName.{out-TypeName};
ghost use Rattle.argument_conventions.specs.Arguments.{arguments_of, as_told};
ghost use Rattle.memory_rules_accesses.specs.Sources as spec;
ghost use Rattle.memory_rules_accesses.specs.Sources.{arg_sources, result_sources};

use crate::columns::{AccessKind, access_kind_of};
use crate::source::Source;
use argument_conventions::{FunctionArgument, argument};
use numbered_form::{ValueTable, add_values, first_value, push_times, room_for_values};
use sil_ast::{BlockArg, Exhausted, Function, Inst, List, Signature, TypeName, ValueId};
use sil_types::TypeTable;
use sil_types::shapes::is_trivial_object;
use std::alloc::Global;

fn slot_source(table: &TypeTable, inst: &Inst) -> Source
    ensures { result ≡ spec.slot_source table.now inst.now.ty }
{
    match &inst.ty {
        None => Source::Other,
        Some(ty) => Source::Slot {
            trivial: is_trivial_object(table, ty),
        },
    }
}

fn field_count(table: &TypeTable, ty: &TypeName) -> usize
    ensures { result ≡ spec.field_count_in table.now (out-TypeName ty.now) }
{
    match ty {
        TypeName::Int(_) => 0,
        TypeName::Named(name) => table.field_count(name),
        TypeName::Optional(_) => 0,
        TypeName::Tuple(_) => 0,
        TypeName::Weak(_) => 0,
        TypeName::Unowned(_) => 0,
        TypeName::Address(_) => 0,
    }
}

fn object_source(table: &TypeTable, inst: &Inst) -> Source
    ensures { result ≡ spec.object_source table.now inst.now.ty }
{
    match &inst.ty {
        None => Source::Other,
        Some(ty) => Source::Object {
            fields: field_count(table, ty),
        },
    }
}

fn borrow_source(lent: Option<ValueId>) -> Source
    ensures { result ≡ spec.borrow_source lent }
{
    match lent {
        None => Source::Other,
        Some(of) => Source::Borrow { of },
    }
}

fn upcast_source(value: Option<ValueId>) -> Source
    ensures { result ≡ spec.upcast_source value }
{
    match value {
        None => Source::Other,
        Some(of) => Source::Upcast { of },
    }
}

fn loan_source(lent: Option<ValueId>) -> Source
    ensures { result ≡ spec.loan_source lent }
{
    match lent {
        None => Source::Other,
        Some(of) => Source::Loan { of },
    }
}

/// The number of the field or member that an instruction names.
fn member_place(table: &TypeTable, inst: &Inst) -> Option<usize>
    ensures { result ≡ spec.member_place table.now inst.now.member }
{
    match &inst.member {
        None => None,
        Some(member) => {
            let member = member.get();
            match table.field(&member.owner, &member.name) {
                None => None,
                Some(found) => Some(found.index as usize),
            }
        }
    }
}

fn element_place(number: Option<i64>) -> Option<usize>
    ensures { result ≡ spec.element_place number }
{
    match number {
        None => None,
        Some(number) => match usize::try_from(number) {
            Ok(index) => Some(index),
            Err(_) => None,
        },
    }
}

/// Whether the field that an instruction names is of a trivial type.
fn is_trivial_member(table: &TypeTable, inst: &Inst) -> bool
    ensures { result ≡ spec.is_trivial_member table.now inst.now.member }
{
    match &inst.member {
        None => false,
        Some(member) => {
            let member = member.get();
            match table.field(&member.owner, &member.name) {
                None => false,
                Some(found) => is_trivial_object(table, &found.field.ty),
            }
        }
    }
}

fn field_source(owner: Option<ValueId>, place: Option<usize>, trivial: bool) -> Source
    ensures { result ≡ spec.field_source owner place trivial }
{
    match (owner, place) {
        (Some(of), Some(index)) => Source::Field { of, index, trivial },
        _ => Source::Other,
    }
}

fn part_source(whole: Option<ValueId>, place: Option<usize>) -> Source
    ensures { result ≡ spec.part_source whole place }
{
    match (whole, place) {
        (Some(of), Some(index)) => Source::Part { of, index },
        _ => Source::Other,
    }
}

fn source_by(table: &TypeTable, kind: AccessKind, inst: &Inst) -> Source
    ensures { result ≡ spec.source_by kind table.now inst.now }
{
    match kind {
        AccessKind::AllocatesSlot => slot_source(table, inst),
        AccessKind::AllocatesObject => object_source(table, inst),
        AccessKind::LendsValue => borrow_source(first_value(inst)),
        AccessKind::Upcasts => upcast_source(first_value(inst)),
        AccessKind::LendsLocation => loan_source(first_value(inst)),
        AccessKind::NamesField => field_source(
            first_value(inst),
            member_place(table, inst),
            is_trivial_member(table, inst),
        ),
        AccessKind::NamesMember => part_source(first_value(inst), member_place(table, inst)),
        AccessKind::NamesElement => part_source(first_value(inst), element_place(inst.number)),
        AccessKind::NoAccess
        | AccessKind::DeallocatesSlot
        | AccessKind::Loads
        | AccessKind::Stores
        | AccessKind::Destroys
        | AccessKind::Passes => Source::Other,
    }
}

/// What an argument of the entry is by its convention.
fn argument_source(table: &TypeTable, argument: Option<FunctionArgument<'_>>) -> Source
    ensures { result ≡ spec.argument_source_or table.now (option_map as_told argument.entry) }
{
    let Some(argument) = argument else {
        return Source::Other;
    };
    match argument.convention.address_row() {
        None => Source::Other,
        Some(row) => Source::Argument {
            row,
            trivial: is_trivial_object(table, argument.ty),
        },
    }
}

/// Adds what so many arguments of the entry are.
fn add_given(
    sources: &mut Vec<Source>,
    table: &TypeTable,
    signature: &Signature,
    count: usize,
) -> Result<(), Exhausted>
    ensures { OnOk result (sources.new.items ≡ sources.old.items ++ spec.entry_sources table.now (arguments_of signature.now) count) }
{
    for n in 0..count {
        sources.push(argument_source(table, argument(signature, n)))?;
    }
    Ok(())
}

fn add_arg_sources(
    sources: &mut Vec<Source>,
    table: &TypeTable,
    signature: &Signature,
    number: usize,
    args: &[BlockArg],
) -> Result<(), Exhausted>
    ensures { OnOk result (sources.new.items ≡ sources.old.items ++ arg_sources table.now signature.now number args.now) }
{
    match number {
        0 => add_given(sources, table, signature, args.len()),
        _ => push_times(sources, args.len(), Source::Other),
    }
}

/// The sources of values, by the types of a module.
#[derive(Drop)]
struct Sources<'t> {
    types: &'t TypeTable,
    signature: &'t Signature,
}

impl<'f> ValueTable<'f> for Sources<'_> {
    type Table = Vec<Source>;

    type Row = Source;

    ghost rows = { λ table. table.items };

    ghost arg_rows = { λ of. arg_sources of.types.now of.signature.now };

    ghost result_rows = { λ of. result_sources of.types.now };

    fn add_args(
        &self,
        table: &mut Vec<Source>,
        number: usize,
        args: &'f [BlockArg],
    ) -> Result<(), Exhausted> {
        add_arg_sources(table, self.types, self.signature, number, args)
    }

    fn add_results(&self, table: &mut Vec<Source>, inst: &'f Inst) -> Result<(), Exhausted> {
        let source = source_by(self.types, access_kind_of(inst.op), inst);
        push_times(table, inst.results.len(), source)
    }
}

/// What each value of the function is to memory, by the values' numbers.
pub(crate) fn sources_of(
    alloc: Global,
    types: &TypeTable,
    f: &Function,
) -> Result<List<Source>, Exhausted>
    ensures { IfOk result (λ sources. sources ≡ spec.sources_of types.now f.now) }
{
    let mut sources = Vec::with_capacity(alloc, room_for_values(f))?;
    let of = Sources {
        types,
        signature: &f.signature,
    };
    add_values(&of, &mut sources, f)?;
    Ok(List::from_vec(sources))
}
