//! Whether a `switch_enum` names each case of its enum once.

ghost use Rattle.std.specs.Prelude.{◌≡◌, ◌≤◌, ◌<◌, ◌&&◌, ℕ, IfSome, false, is_some, length, slice_index_or};
ghost use Rattle.std.specs.List.{list_all, list_any, range_with_len};
ghost use Rattle.numbered_form.specs.inner.Limits.{IsDeclInLimits};
ghost use Rattle.numbered_form.specs.Lists.{Each};
ghost use Rattle.sil_types.specs.Typing.SwitchRules as rules;

use crate::typing_forms::enum_cases::{case_count, case_of_edge, place_in_enum};
use sil_ast::{Edge, TypeName};
use sil_rules::limits::MEMBERS;
use sil_types::TypeTable;

/// Whether each case of an edge is one of the enum.
pub(crate) fn are_of_enum(table: &TypeTable, ty: &TypeName, edges: &[Edge]) -> bool
    ensures { result ≡ list_all (rules.is_of_enum table.now ty.now) edges.now }
{
    edges.iter().all(|edge| edge.case_of.is_none() || case_of_edge(table, ty, edge).is_some())
}

/// Whether no case of the enum has two edges, and each has one where there is no default.
pub(crate) fn has_each_case_once(table: &TypeTable, ty: &TypeName, edges: &[Edge]) -> bool
    requires { Each IsDeclInLimits table.now.decls }
    ensures { result ≡ (rules.are_once (rules.places_of table.now ty.now edges.now) && rules.are_all_there table.now ty.now edges.now) }
{
    match cases_met(table, ty, edges) {
        Some(met) => has_default(edges) || are_met(&met, case_count(table, ty)),
        None => false,
    }
}

fn has_default(edges: &[Edge]) -> bool
    ensures { result ≡ list_any rules.is_default edges.now }
{
    edges.iter().any(|edge| edge.case_of.is_none())
}

/// Which cases of the enum have an edge, by their places, unless one has two.
fn cases_met(table: &TypeTable, ty: &TypeName, edges: &[Edge]) -> Option<[bool; MEMBERS]>
    requires { Each IsDeclInLimits table.now.decls }
    ensures once { is_some result ≡ rules.are_once (rules.places_of table.now ty.now edges.now) }
    ensures met { IfSome result (λ met. (k : ℕ) → k < MEMBERS →
        slice_index_or met k false ≡ rules.has_number (rules.places_of table.now ty.now edges.now) k) }
{
    let mut met = [false; MEMBERS];
    for edge in edges {
        if let Some(place) = place_in_enum(table, ty, edge) {
            if met[place] {
                return None;
            }
            met[place] = true;
        }
    }
    Some(met)
}

/// Whether the first so many cases are met.
fn are_met(met: &[bool], count: usize) -> bool
    requires { count ≤ length met.now }
    ensures { result ≡ list_all (λ k. slice_index_or met.now k false) (range_with_len 0 count) }
{
    for place in 0..count {
        if !met[place] {
            return false;
        }
    }
    true
}
