//! The faults of lists that become too long.

ghost use Rattle.std.specs.Prelude.{◌≡◌, map};
ghost use Rattle.sil_rules.specs.declared.limits.TheConstants.{ARGUMENTS};
ghost use Rattle.sil_rules.specs.declared.limit_word.LimitWord.TheVariants as limit;
ghost use Rattle.sil_grammar_tree.specs.WrittenTree.Faults as faults;

use crate::placed::{Placed, place_of};
use crate::prepended::Prepended;
use sil_ast::Place;
use sil_grammar_tree::{Fault, passed};
use sil_rules::{LimitWord, limits};

/// The fault of a list whose parts are counted by one token each, of which there may be so many.
pub fn too_many<T: Placed>(what: LimitWord, parts: &Prepended<T>, most: usize) -> Option<Fault>
    ensures { result ≡ faults.passed what most (map T.place parts.now) }
{
    passed(what, place_of(parts, most))
}

/// The fault of arguments that begin at these places.
pub fn too_many_arguments(firsts: &Prepended<Place>) -> Option<Fault>
    ensures { result ≡ faults.passed limit.Arguments ARGUMENTS firsts.now }
{
    passed(LimitWord::Arguments, firsts.get(limits::ARGUMENTS).copied())
}
