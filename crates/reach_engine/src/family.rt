//! An automaton for each of many subjects.

ghost use Rattle.std.specs.Prelude.{◌≡◌, ℕ, ◌*◌, ◌<◌, ◌≤◌, ◌∷◌, [], length};
ghost use Rattle.reach_engine.specs.declared.scan.Step.{Step};
ghost use Rattle.reach_engine.specs.inner.Run.{StaysBelow};
ghost use Rattle.reach_engine.specs.inner.Columns.{AllMoved};

use crate::scan::Step;

/// An automaton over items for each of many subjects. Each starts in state 0.
pub trait Family {
    ghost step_of: { Self → ℕ → ℕ → ℕ → Step };

    ghost subject_count: { Self → ℕ };

    ghost state_count: { Self → ℕ };

    ghost item_count: { Self → ℕ };

    /// How many subjects there are.
    fn subjects(&self) -> usize
        ensures { result ≡ subject_count self.now };

    /// How many states there are.
    fn states(&self) -> u8
        ensures { result ≡ state_count self.now };

    /// How many items there are.
    fn items(&self) -> usize
        ensures { result ≡ item_count self.now };

    /// What the subject's automaton does in this state at this item.
    fn step(&self, subject: usize, state: u8, item: usize) -> Step
        requires subject { subject < subject_count self.now }
        requires state { state < state_count self.now }
        requires item { item < item_count self.now }
        ensures step { result ≡ step_of self.now subject state item }
        ensures stays { StaysBelow (state_count self.now) result };
}

/// A family that moves all its subjects over an item at once.
pub trait MoveAll: Family {
    /// Moves each subject over the item: `bundle` has a row of `width` words for each state, with one bit for each subject,
    /// and the subjects whose automata break are added to `bad`.
    fn move_all(&self, width: usize, item: usize, bundle: &mut [u64], bad: &mut [u64])
        requires fits { Self.subject_count self.now ≤ 64 * width }
        requires width { width ≤ 16 }
        requires item { item < Self.item_count self.now }
        requires size { length bundle.old ≡ Self.state_count self.now * width }
        requires bad { length bad.old ≡ width }
        ensures { AllMoved (Self.step_of self.now) (Self.state_count self.now) (Self.subject_count self.now) width (item ∷ [])
            bundle.old bundle.new bad.old bad.new };
}
