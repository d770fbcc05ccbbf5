//! The one call: a module in, an accepted module with its table out, or why it isn't accepted.

ghost use Rattle.std.specs.Prelude.{◌≡◌, IfErr, IfOk, OnOk};
ghost use Rattle.numbered_form.specs.inner.NumberedForm.{IsNumbered};
ghost use Rattle.sil_verifier.specs.inner.Ends.{IsVerifyEnd};
ghost use Rattle.sil_verifier_accepted.specs.AcceptedModules.Findings.{Accepted};
ghost use Rattle.sil_verifier_accepted.specs.AcceptedModules.Refusals as types;
ghost use Rattle.sil_verifier_accepted.specs.AcceptedModules.Refusals.{HasTypes};
ghost use Rattle.sil_verifier_accepted.specs.AcceptedModules.Values.{IsValueRefusal};
ghost use Rattle.sil_verifier_accepted.specs.declared.accepted_modules.refusals.StaticRefusal.TheVariants as static;
ghost use Rattle.sil_verifier_runs.specs.inner.Laws.{NeverFaults};

use crate::checked::Checked;
use crate::refusal::Refusal;
use crate::reports::{item_refusal, typing_refusal, value_refusal};
use crate::types::check_types;
use crate::values::check_values;
use sil_ast::Module;
use sil_rules::LimitWord;
use sil_verifier_accepted::{StaticRefusal, ValueRefusal};
use sil_verifier_runs::no_outcome_faults;
use std::alloc::Global;
use type_check::TypingFault;

/// Why a module isn't accepted. Each has the module that was handed in.
#[derive(Drop)]
pub enum VerifyEnd {
    /// It breaks a rule.
    Refused { module: Module, refusal: Refusal },
    /// A type exceeds the limit on depth or on leaves.
    Limit { module: Module, what: LimitWord },
    /// There is no memory left.
    Memory { module: Module },
}

/// Checks all rules of a module, in their order: those on items (101 to 104), the limits on types, those on typing (201 to 212),
/// and those on values (301 to 305, 401 to 404, 501 to 505 and 601 to 611).
/// The refusal is the first of all that is wrong: by item, by limit, by function and point, by vtable, and then function by
/// function, by group, by value and by rule; of a rule on walks the walk has the fewest edges.
/// No run by holders of an accepted module ends in a fault ([docs/RUNS.md](../../../docs/RUNS.md)).
pub fn verify(alloc: Global, m: Module) -> Result<Checked, VerifyEnd>
    requires { IsNumbered m }
    ensures ok { IfOk result (λ checked. checked ≡ m) }
    ensures accepted { OnOk result (Accepted m) }
    ensures runs { IfOk result (λ checked. NeverFaults checked) }
    ensures err { IfErr result (IsVerifyEnd m) }
{
    no_outcome_faults();
    let table = match check_types(alloc, &m) {
        Ok(table) => table,
        Err(reason) => return Err(end_of_types(alloc, m, reason)),
    };
    match check_values(alloc, &m, &table) {
        Ok(()) => Ok(Checked::of_verified(m, table)),
        Err(reason) => Err(end_of_values(m, reason)),
    }
}

/// The end with a module of which an item, a type or its typing is wrong.
fn end_of_types(alloc: Global, m: Module, reason: StaticRefusal) -> VerifyEnd
    requires numbered { IsNumbered m }
    requires refusal { types.IsRefusal m reason }
    ensures { IsVerifyEnd m result }
{
    match reason {
        StaticRefusal::Item { rule, item } => VerifyEnd::Refused {
            module: m,
            refusal: item_refusal(alloc, rule, item),
        },
        StaticRefusal::Limit { what } => VerifyEnd::Limit { module: m, what },
        StaticRefusal::Typing { fault } => end_of_typing(alloc, m, fault),
        StaticRefusal::Memory => VerifyEnd::Memory { module: m },
    }
}

fn end_of_typing(alloc: Global, m: Module, fault: TypingFault) -> VerifyEnd
    requires numbered { IsNumbered m }
    requires refusal { types.IsRefusal m (static.Typing fault) }
    ensures { IsVerifyEnd m result }
{
    match typing_refusal(alloc, &m, fault) {
        Some(refusal) => VerifyEnd::Refused { module: m, refusal },
        None => VerifyEnd::Memory { module: m },
    }
}

/// The end with a typed module of which a value is wrong.
fn end_of_values(m: Module, reason: ValueRefusal) -> VerifyEnd
    requires types { HasTypes m }
    requires refusal { IsValueRefusal m reason }
    ensures { IsVerifyEnd m result }
{
    match reason {
        ValueRefusal::Rule { function, fault } => VerifyEnd::Refused {
            module: m,
            refusal: value_refusal(function, fault),
        },
        ValueRefusal::Memory => VerifyEnd::Memory { module: m },
    }
}
