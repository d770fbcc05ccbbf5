//! An accepted module with its type table.

ghost use Rattle.std.specs.Prelude.{◌≡◌, IfOk};
ghost use Rattle.numbered_form.specs.inner.NumberedForm.{IsNumbered};
ghost use Rattle.sil_types_declarations.specs.TypeDefinitions.Rules.{AreDeclarationsOf};
ghost use Rattle.sil_verifier_accepted.specs.AcceptedModules.inner.Checked.{IsVerified, IsVerifiedWith};
ghost use Rattle.sil_verifier_runs.specs.inner.Laws.{NeverFaults};

use sil_ast::{Exhausted, Module};
use sil_types::TypeTable;
use sil_verifier_runs::no_outcome_faults;
use std::alloc::Global;
use std::marker::Model;

/// An accepted module with its type table. To a contract it is the module.
#[derive(Drop)]
pub struct Checked {
    inner: Module,
    table: TypeTable,
}

impl Model for Checked {
    ghost use Rattle.std.specs.Coded.{codes};
    ghost use Rattle.sil_ast.specs.contracts.type_name.TypeName as type_name;
    ghost use Rattle.sil_ast.specs.declared.module.Module.{Module};
    ghost use Rattle.sil_verifier_accepted.specs.AcceptedModules.inner.Checked.{IsVerifiedWith};

    ghost Value = { Module };

    ghost coded = { Prim.hlevel (codes, type_name.the_row.coded) };

    ghost view = { λ c. c.inner };

    ghost invariant = { λ c. IsVerifiedWith c.inner c.table };
}

impl Checked {
    /// A module of which it is proved that it is accepted, with its own table.
    pub fn of_verified(m: Module, table: TypeTable) -> Checked
        requires { IsVerifiedWith m table }
        ensures value { result ≡ m }
        ensures runs { NeverFaults result }
    {
        no_outcome_faults();
        Checked { inner: m, table }
    }

    /// The module and its table.
    pub fn into_parts(self) -> (Module, TypeTable)
        ensures module { result.0 ≡ self }
        ensures verified { IsVerifiedWith result.0 result.1 }
    {
        let Checked { inner, table } = self;
        (inner, table)
    }

    /// The module. None of its runs by holders ends in a fault.
    pub fn module(&self) -> &Module
        ensures value { result.now ≡ self.now }
        ensures verified { IsVerified self.now }
        ensures runs { NeverFaults self.now }
    {
        no_outcome_faults();
        &self.inner
    }

    /// What the module declares.
    pub fn table(&self) -> &TypeTable
        ensures { AreDeclarationsOf result.now self.now }
    {
        &self.table
    }

    /// A copy in memory of its own. The table is built again.
    pub fn try_clone(&self, alloc: Global) -> Result<Checked, Exhausted>
        ensures { IfOk result (λ copy. copy ≡ self.now) }
    {
        let inner = self.inner.try_clone(alloc)?;
        let table = table_of(alloc, &inner)?;
        Ok(Checked { inner, table })
    }
}

/// The type table of a module that has one, so that only memory can be lacking.
fn table_of(alloc: Global, m: &Module) -> Result<TypeTable, Exhausted>
    requires { IsNumbered m.now }
    ensures { IfOk result (λ table. AreDeclarationsOf table m.now) }
{
    match TypeTable::build(alloc, m) {
        Ok(table) => Ok(table),
        Err(_) => Err(Exhausted),
    }
}
