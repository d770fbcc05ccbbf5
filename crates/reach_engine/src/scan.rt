//! The automaton that a search follows along every walk.

ghost use Rattle.std.specs.Prelude.{◌≡◌, ℕ, ◌<◌, All};
ghost use Rattle.reach_engine.specs.declared.scan.Step.{Step};
ghost use Rattle.reach_engine.specs.inner.Run.{StaysBelow, Passes};

/// What an automaton does at an item.
#[derive(Clone, Copy, PartialEq, Eq, Debug)]
pub enum Step {
    /// It goes on in this state.
    Go(u8),
    /// It breaks, with this code.
    Bad(u8),
}

/// An automaton over items, by their numbers. It starts in state 0.
pub trait Scan {
    ghost step_of: { Self → ℕ → ℕ → Step };

    ghost state_count: { Self → ℕ };

    ghost item_count: { Self → ℕ };

    /// How many states there are.
    fn states(&self) -> u8
        ensures { result ≡ state_count self.now };

    /// How many items there are.
    fn items(&self) -> usize
        ensures { result ≡ item_count self.now };

    /// What the automaton does in this state at this item.
    fn step(&self, state: u8, item: usize) -> Step
        requires state { state < state_count self.now }
        requires item { item < item_count self.now }
        ensures step { result ≡ step_of self.now state item }
        ensures stays { StaysBelow (state_count self.now) result };
}

/// What became of a list of items.
pub enum Passed {
    Stays(u8),
    Breaks { code: u8, item: usize },
}

/// Passes all of the items, or stops at the first bad one.
pub fn pass<S: Scan>(scan: &S, items: &[usize], state: u8) -> Passed
    requires state { state < S.state_count scan.now }
    requires items { All (λ i. i < S.item_count scan.now) items.now }
    ensures { Passes (S.step_of scan.now) (S.state_count scan.now) state items.now result }
{
    let mut current = state;
    for item in items {
        match scan.step(current, *item) {
            Step::Go(next) => current = next,
            Step::Bad(code) => return Passed::Breaks { code, item: *item },
        }
    }
    Passed::Stays(current)
}
