//! The module that is lowered and run: the accepted one, or the optimised one.

ghost use Rattle.std.specs.Prelude.{IfOk, OnOk};
ghost use Rattle.module_runner.specs.Optimising.{IsOptimisedIf};
ghost use Rattle.module_runner.specs.inner.RunReports.{IsLoweredIf};
ghost use Rattle.sil_verifier.specs.sil_verifier_accepted.AcceptedModules.inner.Checked.{IsVerifiedWith};

use copy_pairing::{optimize, optimize_in_place};
use ownership_lowering::lower_in_place;
use sil_ast::{Exhausted, Module};
use sil_types::TypeTable;
use sil_verifier::Checked;
use std::alloc::Global;

/// The optimised module where that is asked for, and else the module itself. Fails where memory runs out.
pub fn optimised_if(alloc: Global, c: Checked, optimise: bool) -> Result<Checked, Exhausted>
    ensures { IfOk result (λ k. IsOptimisedIf optimise c k) }
{
    if !optimise {
        return Ok(c);
    }
    match optimize(alloc, c) {
        Ok(optimised) => Ok(optimised),
        Err(_unfinished) => Err(Exhausted),
    }
}

/// Lowers a module where it stands, optimised first where that is asked for.
pub(crate) fn lower_if(
    alloc: Global,
    table: &TypeTable,
    m: &mut Module,
    optimise: bool,
) -> Result<(), Exhausted>
    requires { IsVerifiedWith m.old table.now }
    ensures { OnOk result (IsLoweredIf optimise m.old m.new) }
{
    if !optimise {
        return lower_in_place(alloc, table, m);
    }
    optimize_in_place(alloc, table, m)?;
    lower_in_place(alloc, table, m)
}
