//! The other call: the optimised module of an accepted one.

ghost use Rattle.std.specs.Prelude.{◌≡◌, IfErr, IfOk, OnOk};
ghost use Rattle.sil_types_declarations.specs.TypeDefinitions.Declarations.{declarations_of};
ghost use Rattle.copy_pairing_model.specs.Optimised.{HasNoRemovable, IsOptimised, LosesCopies};
ghost use Rattle.copy_pairing_runs.specs.holder_model_laws.LockstepRuns.inner.Agreeing.{RunsAsItDid};
ghost use Rattle.sil_verifier.specs.sil_verifier_accepted.AcceptedModules.inner.Checked.{IsVerified, IsVerifiedWith};

use crate::passes::pass_module;
use copy_pairing_runs::optimised_runs_as_it_did;
use sil_ast::{Exhausted, Module};
use sil_types::TypeTable;
use sil_verifier::Checked;
use std::alloc::Global;

/// Memory ran out: the module, as it was handed over.
#[derive(Drop)]
pub struct Unfinished {
    pub checked: Checked,
}

/// Optimises a module where it stands, by its table, as `optimize` does. Fails where memory runs out, and then parts of it are lost.
pub fn optimize_in_place(alloc: Global, table: &TypeTable, m: &mut Module) -> Result<(), Exhausted>
    requires { IsVerifiedWith m.old table.now }
    ensures optimised { OnOk result (IsOptimised m.old m.new) }
    ensures none_removable { OnOk result (HasNoRemovable m.new) }
    ensures fewer { OnOk result (LosesCopies m.old m.new) }
    ensures runs { OnOk result (RunsAsItDid m.old m.new) }
    ensures verified { OnOk result (IsVerifiedWith m.new table.now) }
{
    optimised_runs_as_it_did();
    pass_module(alloc, table, m)
}

/// The optimised module, made of a copy.
fn optimized_copy(alloc: Global, c: &Checked) -> Result<Module, Exhausted>
    ensures optimised { IfOk result (IsOptimised c.now) }
    ensures none_removable { IfOk result HasNoRemovable }
    ensures fewer { IfOk result (LosesCopies c.now) }
    ensures runs { IfOk result (RunsAsItDid c.now) }
    ensures verified { IfOk result IsVerified }
    ensures declarations { IfOk result (λ m. declarations_of m ≡ declarations_of c.now) }
{
    let mut m = c.module().try_clone(alloc)?;
    optimize_in_place(alloc, c.table(), &mut m)?;
    Ok(m)
}

/// Makes a borrow or a move of each copy that can go, one after another, until none can
/// ([docs/OPTIMISER.md](../../../docs/OPTIMISER.md)): no copy of the optimised module can go, and it has fewer copies than the module
/// where one of these can go. Where memory runs out, the module is handed back unchanged.
/// The optimised module runs by holders as the module does, from each entry and for each bound on turns: where one of the two runs
/// ends the other one does, with the same events, ending, memory and turns, and the same unfreed objects with all their numbers;
/// and that of the optimised module has no more retains and no more releases.
pub fn optimize(alloc: Global, c: Checked) -> Result<Checked, Unfinished>
    ensures ok { IfOk result (λ k. IsOptimised c k) }
    ensures none_removable { IfOk result (λ k. HasNoRemovable k) }
    ensures fewer { IfOk result (λ k. LosesCopies c k) }
    ensures runs { IfOk result (λ k. RunsAsItDid c k) }
    ensures err { IfErr result (λ u. u.checked ≡ c) }
{
    match optimized_copy(alloc, &c) {
        Err(Exhausted) => Err(Unfinished { checked: c }),
        Ok(m) => {
            let (_old, table) = c.into_parts();
            Ok(Checked::of_verified(m, table))
        }
    }
}
