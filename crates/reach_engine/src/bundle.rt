//! The rows of one block, while its items are passed: a bundle has a row for each state, with one bit for each subject.

ghost use Rattle.std.specs.Prelude.{◌≡◌, ◌≢◌, ℕ, ◌+◌, ◌*◌, ◌<◌, ◌≤◌, ◌↔◌, ◌∷◌, [], length, All, Contains};
ghost use Rattle.std.specs.List.Sorted.{IsStrictlyIncreasing};
ghost use Rattle.reach_engine.specs.declared.scan.Step.TheVariants.{Go};
ghost use Rattle.reach_engine.specs.inner.Bits.{bit_in};
ghost use Rattle.reach_engine.specs.inner.Columns.{cell, Has, Moved, Blamed, OthersStay, Put, AllMoved};

use crate::bits::{clear_bit, has_bit, set_bit};
use crate::family::{Family, MoveAll};
use crate::member::Member;
use crate::scan::{Scan, Step};

/// Takes a subject out of each row, and tells which rows had it: those whose bits are set.
fn take_column(bundle: &mut [u64], width: usize, states: usize, subject: usize) -> [u64; 4]
    requires subject { subject < 64 * width }
    requires width { width ≤ 16 }
    requires states { states < 256 }
    requires size { length bundle.old ≡ states * width }
    ensures taken { (s : ℕ) → s < states → (bit_in result s ≡ 1) ↔ Has bundle.old width s subject }
    ensures clear { (s : ℕ) → s < states → bit_in bundle.new (cell width s subject) ≡ 0 }
    ensures others { OthersStay states width subject bundle.old bundle.new }
{
    let mut taken = [0u64; 4];
    for state in 0..states {
        let k = state * (64 * width) + subject;
        if has_bit(bundle, k) {
            set_bit(&mut taken, state);
            clear_bit(bundle, k);
        }
    }
    taken
}

/// Takes the subject's step from one state.
fn put<S: Scan>(
    scan: &S,
    width: usize,
    subject: usize,
    item: usize,
    state: u8,
    bundle: &mut [u64],
    bad: &mut [u64],
)
    requires subject { subject < 64 * width }
    requires width { width ≤ 16 }
    requires item { item < S.item_count scan.now }
    requires state { state < S.state_count scan.now }
    requires size { length bundle.old ≡ S.state_count scan.now * width }
    requires bad { length bad.old ≡ width }
    ensures { Put (S.step_of scan.now state item) width subject bundle.old bundle.new bad.old bad.new }
{
    match scan.step(state, item) {
        Step::Go(next) => set_bit(bundle, next as usize * (64 * width) + subject),
        Step::Bad(_) => set_bit(bad, subject),
    }
}

/// Moves one subject, whose automaton is given, over an item.
pub fn turn_subject<S: Scan>(
    scan: &S,
    width: usize,
    subject: usize,
    item: usize,
    bundle: &mut [u64],
    bad: &mut [u64],
)
    requires subject { subject < 64 * width }
    requires width { width ≤ 16 }
    requires item { item < S.item_count scan.now }
    requires size { length bundle.old ≡ S.state_count scan.now * width }
    requires bad { length bad.old ≡ width }
    ensures moved { Moved (S.step_of scan.now) (S.state_count scan.now) width subject (item ∷ []) bundle.old bundle.new }
    ensures others { OthersStay (S.state_count scan.now) width subject bundle.old bundle.new }
    ensures blamed { Blamed (S.step_of scan.now) (S.state_count scan.now) width subject (item ∷ []) bundle.old bad.old bad.new }
    ensures innocent { (v : ℕ) → v ≢ subject → bit_in bad.new v ≡ bit_in bad.old v }
{
    let states = scan.states();
    let taken = take_column(bundle, width, states as usize, subject);
    for state in 0..states {
        if has_bit(&taken, state as usize) {
            put(scan, width, subject, item, state, bundle, bad);
        }
    }
}

/// Moves the touched subjects of a family over an item, at which all others stay in their states.
pub fn turn_touched<F: Family>(
    family: &F,
    touched: &[u32],
    width: usize,
    item: usize,
    bundle: &mut [u64],
    bad: &mut [u64],
)
    requires ascending { IsStrictlyIncreasing touched.now }
    requires below { All (λ u. u < F.subject_count family.now) touched.now }
    requires others { (u s : ℕ) → u < F.subject_count family.now → s < F.state_count family.now → (Contains touched.now u → ⊥)
        → F.step_of family.now u s item ≡ Go s }
    requires fits { F.subject_count family.now ≤ 64 * width }
    requires width { width ≤ 16 }
    requires item { item < F.item_count family.now }
    requires size { length bundle.old ≡ F.state_count family.now * width }
    requires bad { length bad.old ≡ width }
    ensures { AllMoved (F.step_of family.now) (F.state_count family.now) (F.subject_count family.now) width (item ∷ []) bundle.old bundle.new bad.old bad.new }
{
    for subject in touched {
        let member = Member {
            family,
            subject: *subject as usize,
        };
        turn_subject(&member, width, *subject as usize, item, bundle, bad);
    }
}

/// Moves each subject over the items, one after another.
pub fn pass_all<F: MoveAll>(
    family: &F,
    width: usize,
    items: &[usize],
    bundle: &mut [u64],
    bad: &mut [u64],
)
    requires fits { F.subject_count family.now ≤ 64 * width }
    requires width { width ≤ 16 }
    requires items { All (λ i. i < F.item_count family.now) items.now }
    requires size { length bundle.old ≡ F.state_count family.now * width }
    requires bad { length bad.old ≡ width }
    ensures { AllMoved (F.step_of family.now) (F.state_count family.now) (F.subject_count family.now) width items.now bundle.old bundle.new bad.old bad.new }
{
    for item in items {
        family.move_all(width, *item, bundle, bad);
    }
}
