//! Which values are the results of borrows, and what each of these lends.

ghost use Rattle.std.specs.Prelude.{◌≡◌, IfOk};
ghost use Rattle.numbered_form.specs.ValueTables.Borrows as spec;
ghost use Rattle.numbered_form.specs.ValueTables.Borrows.{arg_borrows, result_borrows};

use crate::value_tables::first_operand::first_value;
use crate::value_tables::room::room_for_values;
use crate::value_tables::times::push_times;
use crate::value_tables::value_table::{ValueTable, add_values};
use instruction_table::{ResultKind, Role, result_kind_of, roles_of};
use sil_ast::{BlockArg, Exhausted, Function, Inst, ValueId};
use std::alloc::Global;

/// What a value borrows, if it is the result of a borrow.
#[derive(Clone, Copy, Debug, PartialEq, Eq)]
pub enum Borrow {
    NoBorrow,
    /// What is at an address: the value is the result of a `load_borrow`.
    OfLocation,
    /// A value, which it lends: it is the result of a `begin_borrow`.
    OfValue(ValueId),
}

fn takes_address(roles: &[Role]) -> bool
    ensures { result ≡ spec.takes_address roles.now }
{
    match roles {
        [first, ..] => match first {
            Role::AddressRole => true,
            Role::Consumed
            | Role::Used
            | Role::Lent
            | Role::Forwarded
            | Role::AnyRole
            | Role::ScopeRole
            | Role::ByParameter
            | Role::Counted => false,
        },
        [] => false,
    }
}

fn borrow_at(address: bool, operand: Option<ValueId>) -> Borrow
    ensures { result ≡ spec.borrow_at address operand }
{
    match operand {
        Some(value) => {
            if address {
                Borrow::OfLocation
            } else {
                Borrow::OfValue(value)
            }
        }
        None => Borrow::OfLocation,
    }
}

fn borrow_by(kind: ResultKind, inst: &Inst) -> Borrow
    ensures { result ≡ spec.borrow_by kind inst.now }
{
    match kind {
        ResultKind::ScopeResult => borrow_at(takes_address(roles_of(inst.op)), first_value(inst)),
        ResultKind::NoneResult
        | ResultKind::OwnedResult
        | ResultKind::AddressResult
        | ResultKind::ForwardedResult
        | ResultKind::OperandResult => Borrow::NoBorrow,
    }
}

struct Borrows;

impl<'f> ValueTable<'f> for Borrows {
    type Table = Vec<Borrow>;

    type Row = Borrow;

    ghost rows = { λ table. table.items };

    ghost arg_rows = { λ of. arg_borrows };

    ghost result_rows = { λ of. result_borrows };

    fn add_args(
        &self,
        table: &mut Vec<Borrow>,
        _number: usize,
        args: &'f [BlockArg],
    ) -> Result<(), Exhausted> {
        push_times(table, args.len(), Borrow::NoBorrow)
    }

    fn add_results(&self, table: &mut Vec<Borrow>, inst: &'f Inst) -> Result<(), Exhausted> {
        push_times(
            table,
            inst.results.len(),
            borrow_by(result_kind_of(inst.op), inst),
        )
    }
}

/// What each value of the function borrows, by the values' numbers.
pub fn borrows_of(alloc: Global, f: &Function) -> Result<Vec<Borrow>, Exhausted>
    ensures { IfOk result (λ borrows. borrows.items ≡ spec.borrows_of f.now) }
{
    let mut borrows = Vec::with_capacity(alloc, room_for_values(f))?;
    add_values(&Borrows, &mut borrows, f)?;
    Ok(borrows)
}

/// Whether the value is the result of a borrow, by a table that tells it of each.
pub fn is_borrow(borrows: &[Borrow], value: ValueId) -> bool
    ensures { result ≡ spec.is_borrow_in borrows.now value }
{
    match borrows.get(value.0 as usize) {
        Some(Borrow::OfLocation) => true,
        Some(Borrow::OfValue(_)) => true,
        Some(Borrow::NoBorrow) => false,
        None => false,
    }
}

/// The value that a value lends, by a table that tells it of each.
pub fn lent_by(borrows: &[Borrow], value: ValueId) -> Option<ValueId>
    ensures { result ≡ spec.lent_in borrows.now value.0 }
{
    match borrows.get(value.0 as usize) {
        Some(Borrow::OfValue(lent)) => Some(*lent),
        Some(Borrow::OfLocation) => None,
        Some(Borrow::NoBorrow) => None,
        None => None,
    }
}
