//! When an access has a mark, and when its mark turns the switch on.

ghost use Rattle.std.specs.Prelude.{◌≡◌};
ghost use Rattle.memory_rules_parts.specs.Switches as switches;

use reach_engine_marks::Mark;
use sil_ast::ValueId;

/// The mark, where the test holds.
pub(crate) fn when(test: bool, mark: Mark) -> Option<Mark>
    ensures { result ≡ switches.when test mark }
{
    if test { Some(mark) } else { None }
}

/// Whether there is a mark that turns its switch on.
pub(crate) fn is_turned_on(mark: Option<Mark>) -> bool
    ensures { result ≡ switches.is_turned_on mark }
{
    match mark {
        None => false,
        Some(mark) => mark.turns.unwrap_or(false),
    }
}

/// Whether it is one value.
pub(crate) fn is_same(a: ValueId, b: ValueId) -> bool
    ensures { result ≡ switches.is_same a b }
{
    a.0 == b.0
}
