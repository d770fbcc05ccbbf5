//! The lowered module of an accepted one.

ghost use Rattle.std.specs.Prelude.{◌≡◌, IfOk, OnOk};
ghost use Rattle.ownership_lowering_laws.specs.ownership_lowering_model.LoweredModules.{lowered};
ghost use Rattle.sil_verifier.specs.holder_model.RunTyping.Runnable.{IsRunnable};
ghost use Rattle.sil_verifier.specs.sil_verifier_accepted.AcceptedModules.inner.Checked.{IsVerifiedWith};
ghost use Rattle.sil_types_declarations.specs.TypeDefinitions.Declarations.{declarations_of};

use crate::laws::accepted_lowers_runnable;
use ownership_lowering_functions::lower_functions;
use ownership_lowering_laws::{functions_are_lowerable, kinds_have_no_rings};
use sil_ast::{Exhausted, Module};
use sil_types::TypeTable;
use sil_verifier::Checked;
use std::alloc::Global;

/// Lowers an accepted module where it stands, by its table. The lowered one can be run, and has the same declarations. Fails where
/// memory runs out, and then parts of the module are lost.
pub fn lower_in_place(alloc: Global, table: &TypeTable, m: &mut Module) -> Result<(), Exhausted>
    requires { IsVerifiedWith m.old table.now }
    ensures value { OnOk result (m.new ≡ lowered m.old) }
    ensures runnable { OnOk result (IsRunnable m.new) }
    ensures declarations { OnOk result (declarations_of m.new ≡ declarations_of m.old) }
{
    accepted_lowers_runnable();
    functions_are_lowerable();
    kinds_have_no_rings();
    lower_functions(alloc, table, m.functions.as_mut_slice())
}

/// The lowered module of an accepted one. It can be run, and has the same declarations. Fails where memory runs out.
pub fn lower(alloc: Global, c: &Checked) -> Result<Module, Exhausted>
    ensures value { IfOk result (λ m. m ≡ lowered c.now) }
    ensures runnable { IfOk result (λ m. IsRunnable m) }
    ensures declarations { IfOk result (λ m. declarations_of m ≡ declarations_of c.now) }
{
    let mut m = c.module().try_clone(alloc)?;
    lower_in_place(alloc, c.table(), &mut m)?;
    Ok(m)
}
