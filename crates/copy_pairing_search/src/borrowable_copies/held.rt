//! The search: whether values are held, on some walk, where marks come.

ghost use Rattle.std.specs.Prelude.{◌↔◌, ℕ, IfOk, IsTrue, Option};
ghost use Rattle.sil_ast.specs.declared.place.ValueId.{ValueId};
ghost use Rattle.sil_cfg.specs.inner.Build.{IsGraphOf};
ghost use Rattle.ownership_kinds_chains.specs.declared.ownership_chains.facts.Facts.{Facts};
ghost use Rattle.ownership_kinds_chains.specs.OwnershipMarks.Known.{AreKindsBy};
ghost use Rattle.copy_pairing_search.specs.BorrowableCopies.inner.Asked.{AreFreeAt};

use crate::borrowable_copies::watched::Watched;
use ownership_kinds_chains::{Kinds, MarkSort};
use reach_engine_marks::{entries_by_item, first_fault};
use sil_ast::{Exhausted, Function, ValueId};
use sil_cfg::Graph;
use std::alloc::Global;

/// Whether on no walk one of `held` is held where one of `values` has a mark of this sort.
pub fn are_free_at(
    alloc: Global,
    f: &Function,
    g: &Graph,
    k: &Kinds,
    sort: MarkSort,
    values: &[ValueId],
    held: &[ValueId],
) -> Result<bool, Exhausted>
    requires { IsGraphOf g.now f.now }
    ensures { IfOk result (λ r. (count : ℕ) (facts : ValueId → Option Facts) → AreKindsBy count facts f.now g.now k.now
        → IsTrue r ↔ AreFreeAt facts f.now sort values.now held.now) }
{
    let watched = Watched {
        k,
        sort,
        values,
        held,
    };
    let entries = entries_by_item(alloc, &watched, &mut (), g)?;
    let fault = first_fault(alloc, f, g, &entries, &[], &[])?;
    Ok(fault.is_none())
}
