//! The checks of items, types and typing, in their order.

ghost use Rattle.std.specs.Prelude.{◌≡◌, IfErr, IfOk, OnOk};
ghost use Rattle.numbered_form.specs.inner.NumberedForm.{IsNumbered};
ghost use Rattle.sil_types_declarations.specs.TypeDefinitions.Rules.{AreDeclarationsOf};
ghost use Rattle.sil_verifier_accepted.specs.AcceptedModules.Refusals.{HasTypes, IsRefusal};

use crate::typing::first_fault;
use sil_ast::Module;
use sil_types::{TypeRefusal, TypeTable};
use sil_verifier_accepted::StaticRefusal;
use std::alloc::Global;

/// The type table of a module that keeps 101 to 104, the limits on types and 201 to 212, and whose functions with a body all have
/// `[ossa]`. The refusal is the first of what is wrong: first by item, then the limits, then by function and point, then by vtable.
pub(crate) fn check_types(alloc: Global, m: &Module) -> Result<TypeTable, StaticRefusal>
    requires { IsNumbered m.now }
    ensures table { IfOk result (λ table. AreDeclarationsOf table m.now) }
    ensures ok { OnOk result (HasTypes m.now) }
    ensures err { IfErr result (IsRefusal m.now) }
{
    let table = match TypeTable::build(alloc, m) {
        Ok(table) => table,
        Err(TypeRefusal::Rule { rule, item }) => return Err(StaticRefusal::Item { rule, item }),
        Err(TypeRefusal::Limit { what }) => return Err(StaticRefusal::Limit { what }),
        Err(TypeRefusal::Memory) => return Err(StaticRefusal::Memory),
    };
    match first_fault(alloc, m, &table)? {
        Some(fault) => Err(StaticRefusal::Typing { fault }),
        None => Ok(table),
    }
}
