//! Ranks that show many numbers to be on no ring, without a search.

ghost use Rattle.std.specs.Prelude.{◌≡◌, ◌<◌, ◌≤◌, length, slice_index, All};
ghost use Rattle.std.specs.Bool.{OnTrue};
ghost use Rattle.number_tables.specs.ContainmentOrder.inner.Ranks.{NeverFall, Rises};

use sil_ast::List;

fn rank_of(ranks: &[usize], value: usize) -> usize
    ensures { result ≡ slice_index ranks.now value }
{
    match ranks.get(value) {
        Some(rank) => *rank,
        None => 0,
    }
}

fn are_not_below(ranks: &[usize], rank: usize, parts: &[usize]) -> bool
    ensures { OnTrue result (All (λ w. rank ≤ slice_index ranks.now w) parts.now) }
{
    for part in parts {
        if rank_of(ranks, *part) < rank {
            return false;
        }
    }
    true
}

fn are_above(ranks: &[usize], rank: usize, parts: &[usize]) -> bool
    ensures { OnTrue result (All (λ w. rank < slice_index ranks.now w) parts.now) }
{
    for part in parts {
        if rank_of(ranks, *part) <= rank {
            return false;
        }
    }
    true
}

/// Whether no part has a lower rank than its whole.
pub(crate) fn never_fall(graph: &[List<usize>], ranks: &[usize]) -> bool
    ensures { OnTrue result (NeverFall graph.now ranks.now) }
{
    for value in 0..graph.len() {
        if !are_not_below(ranks, rank_of(ranks, value), graph[value].as_slice()) {
            return false;
        }
    }
    true
}

/// Whether each part of the number has a higher rank.
pub(crate) fn rises(graph: &[List<usize>], ranks: &[usize], value: usize) -> bool
    requires { value < length graph.now }
    ensures { OnTrue result (Rises graph.now ranks.now value) }
{
    are_above(ranks, rank_of(ranks, value), graph[value].as_slice())
}
