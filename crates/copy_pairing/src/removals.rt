//! The one call: how a copy of an accepted module can go.

ghost use Rattle.std.specs.Prelude.{IfOk};
ghost use Rattle.sil_cfg.specs.Items.{HasBlocks};
ghost use Rattle.sil_cfg.specs.inner.Build.{HasGraph};
ghost use Rattle.numbered_form.specs.PointChecks.inner.Numbered.{IsOfNumberedModule};
ghost use Rattle.ownership_kinds.specs.ownership_kinds_origins.Facts.{facts_in};
ghost use Rattle.copy_pairing_model.specs.Copies.{IsCopy};
ghost use Rattle.copy_pairing_model.specs.Optimised.{IsRemovalAt};
ghost use Rattle.copy_pairing_model.specs.Removable.{IsRemoval, IsRemovalIn};

use crate::notes::unanswered;
use crate::turns::{Turn, turn_by_notes};
use copy_pairing_model::Removal;
use copy_pairing_search::{Copied, copy_at};
use sil_ast::{Exhausted, FuncId, Function, PointId};
use sil_types::TypeTable;
use sil_verifier::Checked;
use std::alloc::Global;

/// How the copy at the point of the function can go.
fn removal_of(
    alloc: Global,
    types: &TypeTable,
    f: &Function,
    p: PointId,
    copied: Copied,
) -> Result<Removal, Exhausted>
    requires of_module { IsOfNumberedModule f.now }
    requires graph { HasGraph f.now }
    requires copy { IsCopy f.now p copied.value copied.operand }
    ensures { IfOk result (IsRemoval (facts_in types.now f.now) f.now p copied.value copied.operand) }
{
    let notes = unanswered(alloc, types, f)?;
    let (turn, _notes) = turn_by_notes(alloc, types, f, p, copied, notes)?;
    match turn {
        Turn::Stay => Ok(Removal::No),
        Turn::Lend { .. } => Ok(Removal::Borrow),
        Turn::Move { .. } => Ok(Removal::Move),
    }
}

/// The same of what stands there, a copy or not.
fn removal_at(
    alloc: Global,
    types: &TypeTable,
    f: &Function,
    p: PointId,
) -> Result<Removal, Exhausted>
    requires of_module { IsOfNumberedModule f.now }
    requires graph { HasBlocks f.now → HasGraph f.now }
    ensures { IfOk result (IsRemovalIn (facts_in types.now f.now) f.now p) }
{
    match copy_at(f, p) {
        None => Ok(Removal::No),
        Some(copied) => removal_of(alloc, types, f, p, copied),
    }
}

/// How the `copy_value` at the point of the function can go ([docs/OPTIMISER.md](../../../docs/OPTIMISER.md)).
/// The answer is `No` also where no copy stands there, or there is no such function. Fails only where memory runs out.
pub fn removable(
    alloc: Global,
    c: &Checked,
    function: FuncId,
    point: PointId,
) -> Result<Removal, Exhausted>
    ensures { IfOk result (IsRemovalAt c.now function.0 point) }
{
    let m = c.module();
    let Some(f) = m.functions.get(function.0 as usize) else {
        return Ok(Removal::No);
    };
    removal_at(alloc, c.table(), f, point)
}
