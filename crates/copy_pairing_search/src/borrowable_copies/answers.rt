//! Which copies of a function can be borrows, asked of all of them once.

ghost use Rattle.std.specs.Prelude.{◌≡◌, ◌↔◌, ◌∷◌, [], ℕ, length, Bool, false, slice_index_or, IfOk, IfSome, IsFalse, IsSomeAnd, IsTrue, Option, Some};
ghost use Rattle.sil_ast.specs.declared.function.Function.{Function};
ghost use Rattle.sil_ast.specs.declared.place.ValueId.{ValueId};
ghost use Rattle.sil_cfg.specs.inner.Build.{IsGraphOf};
ghost use Rattle.ownership_kinds_chains.specs.OwnershipChains.Facts.{known_or};
ghost use Rattle.ownership_kinds_chains.specs.declared.ownership_chains.facts.Facts.{Facts};
ghost use Rattle.ownership_kinds_chains.specs.OwnershipMarks.Known.{AreKindsBy};
ghost use Rattle.ownership_kinds_chains.specs.declared.ownership_marks.mark.MarkSort.TheVariants.{End};
ghost use Rattle.copy_pairing_model.specs.Removable.{IsBorrowable};
ghost use Rattle.copy_pairing_search.specs.BorrowableCopies.inner.Asked.{AreFreeAt};
ghost use Rattle.copy_pairing_search.specs.BorrowableCopies.inner.Together.{AreFound};
ghost use Rattle.copy_pairing_search.specs.BorrowableCopies.inner.Answers.{AreAnswered, AreAnswers, AreKept, AreSpared, AreToldBefore};
ghost use Rattle.copy_pairing_search.specs.BorrowableCopies.inner.Answers.{IsDoubtful, IsToldOf, answer_in, noted, noted_of};

use crate::borrowable_copies::consumers::is_only_destroyed;
use crate::borrowable_copies::copies::Copied;
use crate::borrowable_copies::together::{asked_of, copied_values, held_at_ends, operand_of};
use ownership_kinds_chains::Kinds;
use sil_ast::{Exhausted, Function, ValueId};
use sil_cfg::Graph;
use std::alloc::Global;

/// Whether a copy of the operand can be a borrow.
#[derive(Clone, Copy)]
pub struct Answer {
    pub operand: ValueId,
    pub borrowable: bool,
}

/// Notes whether the copy can be a borrow.
fn note(answers: &mut [Option<Answer>], copied: Copied, borrowable: bool)
    ensures { answers.new ≡ noted copied.value copied.operand borrowable answers.old }
{
    let place = copied.value.0 as usize;
    if place < answers.len() {
        answers[place] = Some(Answer {
            operand: copied.operand,
            borrowable,
        });
    }
}

/// Whether the value can be a borrow, where it is a copy of which a search told whether it is held where it may not be.
fn can_be_borrow(f: &Function, g: &Graph, k: &Kinds, value: ValueId, held: bool) -> bool
    requires { IsGraphOf g.now f.now }
    ensures { (count : ℕ) (facts : ValueId → Option Facts) → AreKindsBy count facts f.now g.now k.now
        → (w : ValueId) → IsFalse held ↔ AreFreeAt facts f.now End (known_or facts w).bases (value ∷ []) → IsTrue result ↔ IsBorrowable facts f.now value w }
{
    if held {
        return false;
    }
    is_only_destroyed(f, g, k, value)
}

/// Notes whether the value can be a borrow, if it is a copy.
fn answer_one(
    f: &Function,
    g: &Graph,
    k: &Kinds,
    value: ValueId,
    copied: Option<ValueId>,
    held: bool,
    answers: &mut [Option<Answer>],
)
    requires { IsGraphOf g.now f.now }
    ensures told { (b : Bool) × (answers.new ≡ noted_of value copied b answers.old) }
    ensures answers { (count : ℕ) (facts : ValueId → Option Facts) → AreKindsBy count facts f.now g.now k.now → AreAnswers facts f.now answers.old
        → ((w : ValueId) → copied ≡ Some w → IsFalse held ↔ AreFreeAt facts f.now End (known_or facts w).bases (value ∷ []))
        → AreAnswers facts f.now answers.new }
{
    if let Some(operand) = copied {
        let borrowable = can_be_borrow(f, g, k, value, held);
        note(answers, Copied { value, operand }, borrowable);
    }
}

fn is_held(held: &[bool], value: ValueId) -> bool
    ensures { result ≡ slice_index_or held.now value.0 false }
{
    match held.get(value.0 as usize) {
        None => false,
        Some(held) => *held,
    }
}

/// The same of each value that was asked.
fn answer_each(
    f: &Function,
    g: &Graph,
    k: &Kinds,
    copied: &[Option<ValueId>],
    held: &[bool],
    answers: &mut [Option<Answer>],
)
    requires graph { IsGraphOf g.now f.now }
    requires size { length copied.now ≡ length answers.old }
    ensures told { AreToldBefore 1024 copied.now answers.new }
    ensures answers { (count : ℕ) (facts : ValueId → Option Facts) → AreKindsBy count facts f.now g.now k.now → AreAnswers facts f.now answers.old
        → AreFound facts f.now copied.now held.now → AreAnswers facts f.now answers.new }
{
    for c in 0..asked_of(copied.len()) {
        let value = ValueId(c as u32);
        let operand = operand_of(copied, value);
        let is_held = is_held(held, value);
        answer_one(f, g, k, value, operand, is_held, answers);
    }
}

/// By value, of each copy of the function, whether it can be a borrow. The walks are searched once for all of them.
/// Of a copy whose value isn't among the first 1,024 nothing is told.
pub fn all_answers(
    alloc: Global,
    f: &Function,
    g: &Graph,
    k: &Kinds,
) -> Result<Vec<Option<Answer>>, Exhausted>
    requires { IsGraphOf g.now f.now }
    ensures answers { IfOk result (λ v. (count : ℕ) (facts : ValueId → Option Facts) → AreKindsBy count facts f.now g.now k.now
        → AreAnswers facts f.now v.items) }
    ensures all { IfOk result (λ v. AreAnswered f.now (length k.now.table) v.items) }
{
    let copied = copied_values(alloc, f, g, k)?;
    let held = held_at_ends(alloc, f, g, k, copied.as_slice())?;
    let mut answers = vec![in alloc; None; k.values()]?;
    answer_each(
        f,
        g,
        k,
        copied.as_slice(),
        held.as_slice(),
        answers.as_mut_slice(),
    );
    Ok(answers)
}

/// What is known of a value.
fn known_of(answers: &[Option<Answer>], value: ValueId) -> Option<Answer>
    ensures { result ≡ answer_in answers.now value.0 }
{
    match answers.get(value.0 as usize) {
        None => None,
        Some(answer) => *answer,
    }
}

/// What is known of the copy. There is no answer only where none is known of what it copies.
pub fn answer_to(answers: &[Option<Answer>], copied: Copied) -> Option<bool>
    ensures told { IfSome result (λ b. (facts : ValueId → Option Facts) (f : Function) → AreAnswers facts f answers.now
        → IsToldOf facts f copied.value copied.operand b) }
    ensures known { (b : Bool) → answer_in answers.now copied.value.0 ≡ Some (record { operand = copied.operand; borrowable = b }) → result ≡ Some b }
{
    let answer = known_of(answers, copied.value)?;
    if answer.operand.0 == copied.operand.0 {
        return Some(answer.borrowable);
    }
    None
}

/// Whether the answer is that a copy can be a borrow, and the copy is the value or one of it.
fn is_doubtful(answer: Option<Answer>, copy: usize, value: ValueId) -> bool
    ensures { IsTrue result ↔ IsSomeAnd answer (IsDoubtful value copy) }
{
    match answer {
        None => false,
        Some(answer) => {
            answer.borrowable && (copy == value.0 as usize || answer.operand.0 == value.0)
        }
    }
}

/// Forgets that the value and its copies can be borrows, and nothing else.
pub fn forget(answers: &mut [Option<Answer>], value: ValueId)
    ensures spared { AreSpared value answers.old answers.new }
    ensures kept { AreKept value answers.old answers.new }
{
    for copy in 0..answers.len() {
        if is_doubtful(answers[copy], copy, value) {
            answers[copy] = None;
        }
    }
}
