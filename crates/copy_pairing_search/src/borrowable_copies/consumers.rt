//! What ends a copy.

ghost use Rattle.std.specs.Prelude.{◌≡◌, ◌∷◌, [], ◌↔◌, ◌||◌, not, ℕ, IsTrue, Option};
ghost use Rattle.std.specs.List.{list_any};
ghost use Rattle.sil_ast.specs.declared.place.ValueId.{ValueId};
ghost use Rattle.sil_cfg.specs.inner.Build.{IsGraphOf};
ghost use Rattle.sil_cfg_items.specs.Parts as parts;
ghost use Rattle.ownership_kinds_chains.specs.declared.ownership_chains.facts.Facts.{Facts};
ghost use Rattle.ownership_kinds_chains.specs.OwnershipMarks.Known.{AreKindsBy};
ghost use Rattle.ownership_kinds_chains.specs.declared.ownership_marks.mark.MarkSort.TheVariants.{End};
ghost use Rattle.copy_pairing_model.specs.Removable as removal;
ghost use Rattle.copy_pairing_model.specs.Removable.{IsOnlyDestroyed};

use crate::borrowable_copies::copies::is_op;
use crate::borrowable_copies::watched::is_mark;
use instruction_table::Op;
use ownership_kinds_chains::{Kinds, Mark, MarkSort};
use sil_ast::{Function, ValueId};
use sil_cfg::{Graph, Item};
use sil_cfg_items::item_inst;

/// Whether one of the marks ends one of the values.
fn end_one(values: &[ValueId], marks: &[Mark]) -> bool
    ensures { result ≡ list_any (removal.is_mark End values.now) marks.now }
{
    marks
        .iter()
        .any(|mark| is_mark(MarkSort::End, values, *mark))
}

/// Whether the item is a `destroy_value`.
fn is_destroy(f: &Function, item: Item) -> bool
    ensures { result ≡ removal.is_destroy (parts.item_inst f.now item) }
{
    match item_inst(f, item) {
        None => false,
        Some(inst) => is_op(Op::DestroyValue, inst),
    }
}

/// Whether the item, which has these marks, ends none of the values, or is a `destroy_value`.
fn is_kept(f: &Function, item: Item, marks: &[Mark], values: &[ValueId]) -> bool
    ensures { result ≡ (not (list_any (removal.is_mark End values.now) marks.now) || removal.is_destroy (parts.item_inst f.now item)) }
{
    !end_one(values, marks) || is_destroy(f, item)
}

/// Whether each item that ends the value is a `destroy_value`.
pub(crate) fn is_only_destroyed(f: &Function, g: &Graph, k: &Kinds, value: ValueId) -> bool
    requires { IsGraphOf g.now f.now }
    ensures { (count : ℕ) (facts : ValueId → Option Facts) → AreKindsBy count facts f.now g.now k.now → IsTrue result ↔ IsOnlyDestroyed facts f.now value }
{
    for i in 0..g.items() {
        if !is_kept(f, g.item(i), k.marks(i), &[value]) {
            return false;
        }
    }
    true
}
