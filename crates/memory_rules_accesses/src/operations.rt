//! What an instruction does to the locations at its addresses.

ghost use Rattle.std.specs.Prelude.{◌≡◌, ◌++◌, OnOk};
ghost use Rattle.std.specs.List.{flat_map};
ghost use Rattle.memory_rules_accesses.specs.Operations as spec;

use crate::access::{Operated, Operation};
use crate::columns::{AccessKind, access_kind_of};
use instruction_table::Role;
use sil_ast::{Exhausted, Inst, Qualifier, ValueId};
use sil_cfg_items::{Taken, add_taken_by};

fn load_operation(qualifier: Qualifier) -> Operation
    ensures { result ≡ spec.load_operation qualifier }
{
    match qualifier {
        Qualifier::Take => Operation::Take,
        Qualifier::Plain
        | Qualifier::Copy
        | Qualifier::Trivial
        | Qualifier::Init
        | Qualifier::Assign => Operation::Read,
    }
}

fn store_operation(qualifier: Qualifier) -> Operation
    ensures { result ≡ spec.store_operation qualifier }
{
    match qualifier {
        Qualifier::Init => Operation::FirstWrite,
        Qualifier::Trivial => Operation::TrivialStore,
        Qualifier::Plain | Qualifier::Copy | Qualifier::Take | Qualifier::Assign => {
            Operation::Write
        }
    }
}

/// What is done to each location, by the row and the word in brackets. What a call does with one goes by its convention.
fn operation_by(kind: AccessKind, qualifier: Qualifier) -> Option<Operation>
    ensures { result ≡ spec.operation_by kind qualifier }
{
    match kind {
        AccessKind::LendsLocation => Some(Operation::Lend),
        AccessKind::Loads => Some(load_operation(qualifier)),
        AccessKind::Stores => Some(store_operation(qualifier)),
        AccessKind::Destroys => Some(Operation::Take),
        AccessKind::NoAccess
        | AccessKind::AllocatesSlot
        | AccessKind::AllocatesObject
        | AccessKind::DeallocatesSlot
        | AccessKind::LendsValue
        | AccessKind::Upcasts
        | AccessKind::NamesField
        | AccessKind::NamesMember
        | AccessKind::NamesElement
        | AccessKind::Passes => None,
    }
}

pub(crate) fn is_address_role(role: Role) -> bool
    ensures { result ≡ spec.is_address_role role }
{
    match role {
        Role::AddressRole => true,
        Role::Consumed
        | Role::Used
        | Role::Lent
        | Role::Forwarded
        | Role::AnyRole
        | Role::ScopeRole
        | Role::ByParameter
        | Role::Counted => false,
    }
}

fn add_addresses_among(addresses: &mut Vec<ValueId>, taken: &[Taken]) -> Result<(), Exhausted>
    ensures { OnOk result (addresses.new.items ≡ addresses.old.items ++ flat_map spec.address_of taken.now) }
{
    for one in taken {
        if is_address_role(one.role) {
            addresses.push(one.value)?;
        }
    }
    Ok(())
}

/// Adds the addresses among the operands of an instruction, in order.
pub fn add_addresses(addresses: &mut Vec<ValueId>, inst: &Inst) -> Result<(), Exhausted>
    ensures { OnOk result (addresses.new.items ≡ addresses.old.items ++ spec.addresses_of inst.now) }
{
    let mut taken = Vec::new(*addresses.allocator());
    add_taken_by(&mut taken, inst)?;
    add_addresses_among(addresses, taken.as_slice())?;
    Ok(())
}

/// What is done at an operand, by an instruction of this kind with this word in brackets.
pub(crate) fn operation_at(
    kind: AccessKind,
    qualifier: Qualifier,
    taken: Taken,
) -> Option<Operation>
    ensures { result ≡ spec.operation_at kind qualifier taken }
{
    if let Some(row) = taken.handed {
        return Some(Operation::Handed(row));
    }
    if is_address_role(taken.role) {
        operation_by(kind, qualifier)
    } else {
        None
    }
}

fn add_operated(
    operations: &mut Vec<Operated>,
    kind: AccessKind,
    qualifier: Qualifier,
    taken: &[Taken],
) -> Result<(), Exhausted>
    ensures { OnOk result (operations.new.items ≡ operations.old.items ++ flat_map (spec.operated_at kind qualifier) taken.now) }
{
    for one in taken {
        if let Some(operation) = operation_at(kind, qualifier, *one) {
            operations.push(Operated {
                address: one.value,
                operation,
            })?;
        }
    }
    Ok(())
}

/// Adds what an instruction does to locations, in the order of its operands.
pub fn add_operations(operations: &mut Vec<Operated>, inst: &Inst) -> Result<(), Exhausted>
    ensures { OnOk result (operations.new.items ≡ operations.old.items ++ spec.operations_of inst.now) }
{
    let mut taken = Vec::new(*operations.allocator());
    add_taken_by(&mut taken, inst)?;
    add_operated(
        operations,
        access_kind_of(inst.op),
        inst.qualifier,
        taken.as_slice(),
    )
}

/// Whether an instruction deallocates a slot.
pub fn deallocates(inst: &Inst) -> bool
    ensures { result ≡ spec.deallocates inst.now }
{
    match access_kind_of(inst.op) {
        AccessKind::DeallocatesSlot => true,
        AccessKind::NoAccess
        | AccessKind::AllocatesSlot
        | AccessKind::AllocatesObject
        | AccessKind::LendsValue
        | AccessKind::Upcasts
        | AccessKind::LendsLocation
        | AccessKind::NamesField
        | AccessKind::NamesMember
        | AccessKind::NamesElement
        | AccessKind::Loads
        | AccessKind::Stores
        | AccessKind::Destroys
        | AccessKind::Passes => false,
    }
}
