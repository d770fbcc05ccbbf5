//! Whether a copy can become a borrow.

ghost use Rattle.std.specs.Prelude.{◌↔◌, ℕ, IfOk, IsTrue, Option};
ghost use Rattle.sil_ast.specs.declared.place.ValueId.{ValueId};
ghost use Rattle.sil_cfg.specs.inner.Build.{IsGraphOf};
ghost use Rattle.ownership_kinds_chains.specs.declared.ownership_chains.facts.Facts.{Facts};
ghost use Rattle.ownership_kinds_chains.specs.OwnershipMarks.Known.{AreKindsBy};
ghost use Rattle.copy_pairing_model.specs.Removable.{IsBorrowable};

use crate::borrowable_copies::consumers::is_only_destroyed;
use crate::borrowable_copies::copies::Copied;
use crate::borrowable_copies::held::are_free_at;
use ownership_kinds_chains::{Kinds, MarkSort};
use sil_ast::{Exhausted, Function};
use sil_cfg::Graph;
use std::alloc::Global;

/// Whether the copy can become a borrow.
pub fn is_borrowable(
    alloc: Global,
    f: &Function,
    g: &Graph,
    k: &Kinds,
    copied: Copied,
) -> Result<bool, Exhausted>
    requires { IsGraphOf g.now f.now }
    ensures { IfOk result (λ r. (count : ℕ) (facts : ValueId → Option Facts) → AreKindsBy count facts f.now g.now k.now
        → IsTrue r ↔ IsBorrowable facts f.now copied.value copied.operand) }
{
    if !is_only_destroyed(f, g, k, copied.value) {
        return Ok(false);
    }
    are_free_at(
        alloc,
        f,
        g,
        k,
        MarkSort::End,
        k.bases(copied.operand),
        &[copied.value],
    )
}
