//! Some of the subjects, as one family of automata that never breaks: what a mark breaks stays in state 2.

ghost use Rattle.std.specs.Prelude.{◌≡◌, ◌+◌, ◌*◌, ◌<◌, ◌≤◌, ◌^◌, [], ◌∷◌, length};
ghost use Rattle.reach_engine.specs.inner.Run.{run};
ghost use Rattle.reach_engine.specs.declared.scan.Step.TheVariants.{Go};
ghost use Rattle.number_tables.specs.PathLists.inner.Lists.{list_at};
ghost use Rattle.reach_engine_marks.specs.PathPatterns.inner.Reads.{read_step};
ghost use Rattle.reach_engine_marks.specs.PathChecks.Entries.{means};
ghost use Rattle.reach_engine_marks.specs.KeptSubjects.inner.Settled.{ArePassed, settled_step, subject_settled};

use crate::path_checks::Entry;
use crate::path_patterns::{Mark, turn};
use number_tables::ItemLists;
use reach_engine::{Family, MoveAll, Scan, Step, turn_subject};

/// The `count` subjects from `first` on, with what each item does.
#[derive(Drop)]
pub struct Settling<'a> {
    pub entries: &'a ItemLists<Entry>,
    pub first: usize,
    pub count: usize,
    ghost few: { count ≤ 1024 },
    ghost fits: { first + count ≤ 2 ^ 32 },
}

/// One mark as an automaton by itself, which does the same at each item.
#[derive(Drop)]
struct OneMark {
    mark: Mark,
}

impl Scan for OneMark {
    ghost step_of = { λ m state _. settled_step state m.mark };

    ghost state_count = { λ _. 3 };

    ghost item_count = { λ _. 1 };

    fn states(&self) -> u8 {
        3
    }

    fn items(&self) -> usize {
        1
    }

    fn step(&self, state: u8, item: usize) -> Step {
        let _ = item;
        Step::Go(settle(state, self.mark))
    }
}

/// One mark.
fn settle(state: u8, mark: Mark) -> u8
    requires { state < 3 }
    ensures step { settled_step state mark ≡ Go result }
    ensures stays { result < 3 }
{
    if state == 2 {
        return 2;
    }
    match turn(state, mark) {
        Step::Go(next) => next,
        Step::Bad(_) => 2,
    }
}

/// One entry, as it is to one subject.
fn settle_one(subject: usize, entry: &Entry, state: u8) -> u8
    requires { state < 3 }
    ensures step { read_step settled_step (means subject) state entry.now ≡ Go result }
    ensures stays { result < 3 }
{
    if entry.subject as usize == subject {
        settle(state, entry.mark)
    } else {
        state
    }
}

/// Entries of one item, one after another.
fn settle_all(subject: usize, entries: &[Entry], state: u8) -> u8
    requires { state < 3 }
    ensures step { run (read_step settled_step (means subject)) (Go state) entries.now ≡ Go result }
    ensures stays { result < 3 }
{
    let mut current = state;
    for entry in entries {
        current = settle_one(subject, entry, current);
    }
    current
}

/// Moves the subject of one entry, if it is one of the `count` from `first` on.
fn pass_entry(
    entry: &Entry,
    first: usize,
    count: usize,
    width: usize,
    bundle: &mut [u64],
    bad: &mut [u64],
)
    requires fits { count ≤ 64 * width }
    requires width { width ≤ 16 }
    requires size { length bundle.old ≡ 3 * width }
    requires bad { length bad.old ≡ width }
    ensures { ArePassed first count width (entry.now ∷ []) bundle.old bundle.new bad.old bad.new }
{
    let subject = entry.subject as usize;
    if subject < first {
        return;
    }
    let distance = subject - first;
    if distance < count {
        turn_subject(
            &OneMark { mark: entry.mark },
            width,
            distance,
            0,
            bundle,
            bad,
        );
    }
}

/// Moves the subjects of entries, one entry after another.
fn pass_entries(
    entries: &[Entry],
    first: usize,
    count: usize,
    width: usize,
    bundle: &mut [u64],
    bad: &mut [u64],
)
    requires fits { count ≤ 64 * width }
    requires width { width ≤ 16 }
    requires size { length bundle.old ≡ 3 * width }
    requires bad { length bad.old ≡ width }
    ensures { ArePassed first count width entries.now bundle.old bundle.new bad.old bad.new }
{
    for entry in entries {
        pass_entry(entry, first, count, width, bundle, bad);
    }
}

impl Family for Settling<'_> {
    ghost step_of = { λ c u. subject_settled (list_at c.entries.now) (c.first + u) };

    ghost subject_count = { λ c. c.count };

    ghost state_count = { λ _. 3 };

    ghost item_count = { λ c. length c.entries.now };

    fn subjects(&self) -> usize {
        self.count
    }

    fn states(&self) -> u8 {
        3
    }

    fn items(&self) -> usize {
        self.entries.len()
    }

    fn step(&self, subject: usize, state: u8, item: usize) -> Step {
        let subject = self.first + subject;
        Step::Go(settle_all(subject, self.entries.at(item), state))
    }
}

impl MoveAll for Settling<'_> {
    fn move_all(&self, width: usize, item: usize, bundle: &mut [u64], bad: &mut [u64]) {
        let own = self.entries.at(item);
        pass_entries(own, self.first, self.count, width, bundle, bad);
    }
}
