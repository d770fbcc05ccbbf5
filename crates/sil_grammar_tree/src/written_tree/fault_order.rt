//! Which of two faults comes first, and the faults of a list that is too long and of a number out of its range.

ghost use Rattle.std.specs.Prelude.{◌≡◌};
ghost use Rattle.std.specs.Option.{option_map};
ghost use Rattle.sil_grammar_tree.specs.declared.written_tree.fault.FaultKind.TheVariants.{Limit};
ghost use Rattle.sil_grammar_tree.specs.WrittenTree.Faults as said;

use crate::written_tree::fault::{Fault, FaultKind};
use sil_ast::Place;
use sil_rules::LimitWord;

#[tactic(auto, unfolding(crate::specs::WrittenTree::Faults::limit_rank))]
fn limit_rank(what: LimitWord) -> u8
    ensures { result ≡ said.limit_rank what }
{
    match what {
        LimitWord::Text => 0,
        LimitWord::Name => 1,
        LimitWord::Declarations => 2,
        LimitWord::Members => 3,
        LimitWord::Arguments => 4,
        LimitWord::Functions => 5,
        LimitWord::Blocks => 6,
        LimitWord::Instructions => 7,
        LimitWord::Values => 8,
        LimitWord::Depth => 9,
        LimitWord::Leaves => 10,
    }
}

/// Where one token passes two limits, the lower rank comes first.
#[tactic(auto, unfolding(crate::specs::WrittenTree::Faults::rank))]
fn rank(kind: FaultKind) -> u8
    ensures { result ≡ said.rank kind }
{
    match kind {
        FaultKind::Limit(what) => limit_rank(what),
        _ => 0,
    }
}

fn comes_before(a: Fault, b: Fault) -> bool
    ensures { result ≡ said.comes_before a b }
{
    a.place.offset < b.place.offset
        || (a.place.offset == b.place.offset && rank(a.kind) < rank(b.kind))
}

/// The first of two faults.
#[tactic(auto, unfolding(crate::specs::WrittenTree::Faults::earlier))]
pub fn earlier(a: Option<Fault>, b: Option<Fault>) -> Option<Fault>
    ensures { result ≡ said.earlier a b }
{
    match (a, b) {
        (None, b) => b,
        (Some(a), None) => Some(a),
        (Some(a), Some(b)) => Some(if comes_before(b, a) { b } else { a }),
    }
}

/// The fault of a limit that is passed at a place.
pub fn limit_fault(what: LimitWord, place: Place) -> Fault
    ensures { result ≡ said.fault (Limit what) place }
{
    Fault {
        kind: FaultKind::Limit(what),
        place,
    }
}

/// The fault at the token behind the last that a limit allows, where there is one.
pub fn passed(what: LimitWord, place: Option<Place>) -> Option<Fault>
    ensures { result ≡ option_map (said.fault (Limit what)) place }
{
    match place {
        Some(place) => Some(limit_fault(what, place)),
        None => None,
    }
}

/// The fault at a number that has no value in its range.
pub fn out_of_range<T: Copy>(value: Option<T>, place: Place) -> Option<Fault>
    ensures { result ≡ said.out_of_range value place }
{
    match value {
        Some(_) => None,
        None => Some(Fault {
            kind: FaultKind::NumberRange,
            place,
        }),
    }
}
