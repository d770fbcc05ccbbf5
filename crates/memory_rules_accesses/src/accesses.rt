//! What each item of a function does to memory and to the values that are lent.

ghost use Rattle.std.specs.Prelude.{◌≡◌, ℕ, Option, IfOk, OnOk, length};
ghost use Rattle.sil_ast.specs.declared.place.ValueId.{ValueId};
ghost use Rattle.sil_cfg.specs.Layout.{item_count};
ghost use Rattle.reach_engine_marks.specs.PathPatterns.inner.Reads.{accesses_at, AgreesWith};
ghost use Rattle.ownership_kinds_chains.specs.OwnershipChains.Facts.{told_at};
ghost use Rattle.ownership_kinds_chains.specs.declared.ownership_chains.facts.Facts.{Facts};
ghost use Rattle.ownership_kinds_chains.specs.OwnershipMarks.Known.{AreKindsBy};
ghost use Rattle.memory_rules_accesses.specs.Accesses.{accesses_of, accesses_with};

use crate::access::Access;
use crate::item_accesses::{
    add_begins, add_deallocations, add_does, add_ends, add_made, add_mentions,
};
use crate::memory::Memory;
use ownership_kinds_chains::{Kinds, Mark};
use sil_ast::{Exhausted, Function, ValueId};
use sil_cfg::{Graph, Item};
use sil_cfg_items::{Taken, add_item_defined, add_item_taken, item_inst};
use std::alloc::Global;

/// Makes `accesses` what an item with these marks does. What it holds before doesn't matter, nor what `taken` and `defined` hold:
/// they are memory for the operands and the values that the item defines.
pub fn make_accesses(
    accesses: &mut Vec<Access>,
    f: &Function,
    item: Item,
    marks: &[Mark],
    m: &Memory,
    taken: &mut Vec<Taken>,
    defined: &mut Vec<ValueId>,
) -> Result<(), Exhausted>
    ensures { OnOk result (accesses.new.items ≡ accesses_with m.now marks.now f.now item) }
{
    taken.clear();
    add_item_taken(taken, f, item)?;
    defined.clear();
    add_item_defined(defined, f, item)?;
    let inst = item_inst(f, item);
    accesses.clear();
    add_ends(accesses, marks)?;
    add_mentions(accesses, inst, taken.as_slice())?;
    add_does(accesses, inst, taken.as_slice())?;
    add_deallocations(accesses, inst)?;
    add_made(accesses, m, defined.as_slice())?;
    add_begins(accesses, marks)
}

/// The same as a list of its own.
fn accesses_of_item(
    alloc: Global,
    f: &Function,
    item: Item,
    marks: &[Mark],
    m: &Memory,
    taken: &mut Vec<Taken>,
    defined: &mut Vec<ValueId>,
) -> Result<Vec<Access>, Exhausted>
    ensures { IfOk result (λ v. v.items ≡ accesses_with m.now marks.now f.now item) }
{
    let mut accesses = Vec::new(alloc);
    make_accesses(&mut accesses, f, item, marks, m, taken, defined)?;
    Ok(accesses)
}

/// What an item of `f` does to memory and to the values that are lent, made anew: for a caller that knows no number of it.
/// `k` has the kinds of `f`, and `m` what its values are to memory.
pub fn accesses_anew(
    alloc: Global,
    f: &Function,
    k: &Kinds,
    m: &Memory,
    item: Item,
) -> Result<Vec<Access>, Exhausted>
    ensures { IfOk result (λ v. v.items ≡ accesses_of m.now (told_at k.now.table) f.now item) }
{
    let marks = k.marks_of(alloc, f, item)?;
    let mut taken = Vec::new(alloc);
    let mut defined = Vec::new(alloc);
    accesses_of_item(alloc, f, item, &marks, m, &mut taken, &mut defined)
}

/// What each item of the function's graph does to memory and to the values that are lent, by the item's number.
/// `g` is the graph of `f`, `k` has the marks of its items, and `m` what its values are to memory.
pub fn accesses_by_item(
    alloc: Global,
    f: &Function,
    g: &Graph,
    k: &Kinds,
    m: &Memory,
) -> Result<Vec<Vec<Access>>, Exhausted>
    ensures size { IfOk result (λ v. length v.items ≡ item_count g.now) }
    ensures accesses { IfOk result (λ v. (count : ℕ) (facts : ValueId → Option Facts) → AreKindsBy count facts f.now g.now k.now →
        AgreesWith g.now (accesses_at v.items) (accesses_of m.now facts f.now)) }
{
    let mut taken = Vec::new(alloc);
    let mut defined = Vec::new(alloc);
    let mut all = Vec::with_capacity(alloc, g.items())?;
    for i in 0..g.items() {
        let accesses = accesses_of_item(
            alloc,
            f,
            g.item(i),
            k.marks(i),
            m,
            &mut taken,
            &mut defined,
        )?;
        all.push(accesses)?;
    }
    Ok(all)
}
