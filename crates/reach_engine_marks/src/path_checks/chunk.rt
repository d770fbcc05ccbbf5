//! Some of the subjects, as one family of automata: those from a first one on.

ghost use Rattle.std.specs.Prelude.{◌≡◌, ◌+◌, ◌*◌, ◌<◌, ◌≤◌, ◌^◌, ◌++◌, [], ◌∷◌, length};
ghost use Rattle.reach_engine.specs.inner.Run.{run, StaysBelow};
ghost use Rattle.reach_engine.specs.declared.scan.Step.TheVariants.{Go};
ghost use Rattle.reach_engine_marks.specs.PathPatterns.inner.Reads.{read_step};
ghost use Rattle.reach_engine_marks.specs.PathPatterns.inner.Automaton.{mark_step};
ghost use Rattle.reach_engine_marks.specs.PathChecks.Entries.{means};
ghost use Rattle.reach_engine_marks.specs.PathChecks.inner.Automata.{subject_step};
ghost use Rattle.reach_engine_marks.specs.PathChecks.inner.Shared.{entries_among};
ghost use Rattle.reach_engine_marks.specs.PathChecks.inner.Chunks.{ArePassed};

use crate::path_checks::entry::Entry;
use crate::path_checks::sharing::shared_at;
use crate::path_patterns::{Mark, turn};
use number_tables::ItemLists;
use reach_engine::{Family, MoveAll, Scan, Step, turn_subject};

/// The `count` subjects from `first` on, with what each item does: its own entries, and behind them those of `shared` if it is one that shares.
#[derive(Drop)]
pub struct Chunk<'a> {
    pub entries: &'a ItemLists<Entry>,
    pub shared: &'a [Entry],
    pub sharing: &'a [bool],
    pub first: usize,
    pub count: usize,
    ghost few: { count ≤ 1024 },
    ghost fits: { first + count ≤ 2 ^ 32 },
}

/// One mark as an automaton by itself, which does the same at each item.
#[derive(Drop)]
struct OneMark {
    mark: Mark,
}

impl Scan for OneMark {
    ghost step_of = { λ m state _. mark_step state m.mark };

    ghost state_count = { λ _. 2 };

    ghost item_count = { λ _. 1 };

    fn states(&self) -> u8 {
        2
    }

    fn items(&self) -> usize {
        1
    }

    fn step(&self, state: u8, item: usize) -> Step {
        let _ = item;
        turn(state, self.mark)
    }
}

/// One entry, as it is to one subject.
fn step_one(subject: usize, entry: &Entry, state: u8) -> Step
    requires { state < 2 }
    ensures step { result ≡ read_step mark_step (means subject) state entry.now }
    ensures stays { StaysBelow 2 result }
{
    if entry.subject as usize == subject {
        turn(state, entry.mark)
    } else {
        Step::Go(state)
    }
}

/// Entries of one item, one after another.
fn step_all(subject: usize, entries: &[Entry], state: u8) -> Step
    requires { state < 2 }
    ensures step { result ≡ run (read_step mark_step (means subject)) (Go state) entries.now }
    ensures stays { StaysBelow 2 result }
{
    let mut current = state;
    for entry in entries {
        match step_one(subject, entry, current) {
            Step::Go(next) => current = next,
            Step::Bad(code) => return Step::Bad(code),
        }
    }
    Step::Go(current)
}

/// Moves the subject of one entry, if it is one of the `count` from `first` on.
fn pass_entry(
    entry: &Entry,
    first: usize,
    count: usize,
    width: usize,
    bundle: &mut [u64],
    bad: &mut [u64],
)
    requires fits { count ≤ 64 * width }
    requires width { width ≤ 16 }
    requires size { length bundle.old ≡ 2 * width }
    requires bad { length bad.old ≡ width }
    ensures { ArePassed first count width (entry.now ∷ []) bundle.old bundle.new bad.old bad.new }
{
    let subject = entry.subject as usize;
    if subject < first {
        return;
    }
    let distance = subject - first;
    if distance < count {
        turn_subject(
            &OneMark { mark: entry.mark },
            width,
            distance,
            0,
            bundle,
            bad,
        );
    }
}

/// Moves the subjects of entries, one entry after another.
fn pass_entries(
    entries: &[Entry],
    first: usize,
    count: usize,
    width: usize,
    bundle: &mut [u64],
    bad: &mut [u64],
)
    requires fits { count ≤ 64 * width }
    requires width { width ≤ 16 }
    requires size { length bundle.old ≡ 2 * width }
    requires bad { length bad.old ≡ width }
    ensures { ArePassed first count width entries.now bundle.old bundle.new bad.old bad.new }
{
    for entry in entries {
        pass_entry(entry, first, count, width, bundle, bad);
    }
}

impl Family for Chunk<'_> {
    ghost step_of = { λ c u. subject_step (entries_among c.entries.now c.shared.now c.sharing.now) (c.first + u) };

    ghost subject_count = { λ c. c.count };

    ghost state_count = { λ _. 2 };

    ghost item_count = { λ c. length c.entries.now };

    fn subjects(&self) -> usize {
        self.count
    }

    fn states(&self) -> u8 {
        2
    }

    fn items(&self) -> usize {
        self.entries.len()
    }

    fn step(&self, subject: usize, state: u8, item: usize) -> Step {
        let subject = self.first + subject;
        match step_all(subject, self.entries.at(item), state) {
            Step::Go(next) => {
                step_all(subject, shared_at(self.shared, self.sharing, item), next)
            }
            Step::Bad(code) => Step::Bad(code),
        }
    }
}

impl MoveAll for Chunk<'_> {
    fn move_all(&self, width: usize, item: usize, bundle: &mut [u64], bad: &mut [u64]) {
        let own = self.entries.at(item);
        let shared = shared_at(self.shared, self.sharing, item);
        pass_entries(own, self.first, self.count, width, bundle, bad);
        pass_entries(shared, self.first, self.count, width, bundle, bad);
    }
}
