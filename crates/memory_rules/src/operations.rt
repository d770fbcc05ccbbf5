//! What an instruction does to locations, and which do nothing.

ghost use Rattle.std.specs.Prelude.{◌≡◌, IfOk};
ghost use Rattle.memory_rules_accesses.specs.Operations as operations;
ghost use Rattle.memory_rules.specs.inner.StaticFaults as faults;

use memory_rules_accesses::{AccessKind, Operated, access_kind_of, add_operations};
use sil_ast::{Exhausted, Inst};
use std::alloc::Global;

/// Whether the instruction does nothing to any location by its row, and deallocates no slot. Most do neither.
pub(crate) fn is_idle(inst: &Inst) -> bool
    ensures { result ≡ faults.is_idle inst.now }
{
    match access_kind_of(inst.op) {
        AccessKind::LendsLocation
        | AccessKind::Loads
        | AccessKind::Stores
        | AccessKind::Destroys
        | AccessKind::Passes
        | AccessKind::DeallocatesSlot => false,
        AccessKind::NoAccess
        | AccessKind::AllocatesSlot
        | AccessKind::AllocatesObject
        | AccessKind::LendsValue
        | AccessKind::Upcasts
        | AccessKind::NamesField
        | AccessKind::NamesMember
        | AccessKind::NamesElement => true,
    }
}

/// What an instruction does to locations, in the order of its operands.
pub(crate) fn operations_of(alloc: Global, inst: &Inst) -> Result<Vec<Operated>, Exhausted>
    ensures { IfOk result (λ done. done.items ≡ operations.operations_of inst.now) }
{
    let mut done = Vec::new(alloc);
    add_operations(&mut done, inst)?;
    Ok(done)
}
