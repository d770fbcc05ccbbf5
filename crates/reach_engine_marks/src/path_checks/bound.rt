//! A number above every subject.

ghost use Rattle.std.specs.Prelude.{ℕ, ◌<◌, ◌≤◌, ◌^◌, All};
ghost use Rattle.number_tables.specs.PathLists.inner.Lists.{list_at};

use crate::path_checks::entry::Entry;
use number_tables::ItemLists;

/// A number above every subject, and not below `least`.
pub fn subject_bound(entries: &ItemLists<Entry>, least: usize) -> usize
    requires { least ≤ 2 ^ 32 }
    ensures above { (i : ℕ) → All (λ e. e.subject < result) (list_at entries.now i) }
    ensures least { least ≤ result }
    ensures fits { result ≤ 2 ^ 32 }
{
    let mut bound = least;
    for item in 0..entries.len() {
        bound = bound_over(entries.at(item), bound);
    }
    bound
}

/// The same for the entries of one item, if a number is above those before.
fn bound_over(entries: &[Entry], before: usize) -> usize
    requires { before ≤ 2 ^ 32 }
    ensures above { All (λ e. e.subject < result) entries.now }
    ensures kept { before ≤ result }
    ensures fits { result ≤ 2 ^ 32 }
{
    let mut bound = before;
    for entry in entries {
        let next = entry.subject as usize + 1;
        if bound < next {
            bound = next;
        }
    }
    bound
}
