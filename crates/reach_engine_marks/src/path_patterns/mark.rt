//! A mark of a subject, and the two states of its switch.

ghost use Rattle.std.specs.Prelude.{◌≡◌, ◌<◌};
ghost use Rattle.reach_engine.specs.inner.Run.{StaysBelow};
ghost use Rattle.reach_engine_marks.specs.PathPatterns.Marks as marks;
ghost use Rattle.reach_engine_marks.specs.PathPatterns.inner.Automaton.{mark_step};

use reach_engine::Step;
use sil_rules::Rule;

/// What an item does to a subject: what it needs, what it turns, and the rule that is broken where it doesn't find what it needs.
#[derive(Clone, Copy, PartialEq, Eq, Debug)]
pub struct Mark {
    pub needs: Option<bool>,
    pub turns: Option<bool>,
    pub rule: Rule,
}

impl Mark {
    /// It needs the switch on.
    pub fn needs_on(rule: Rule) -> Mark
        ensures { result ≡ marks.needs_on rule }
    {
        Mark {
            needs: Some(true),
            turns: None,
            rule,
        }
    }

    /// It needs the switch off.
    pub fn needs_off(rule: Rule) -> Mark
        ensures { result ≡ marks.needs_off rule }
    {
        Mark {
            needs: Some(false),
            turns: None,
            rule,
        }
    }

    /// It turns the switch on, however it is.
    pub fn turns_on(rule: Rule) -> Mark
        ensures { result ≡ marks.turns_on rule }
    {
        Mark {
            needs: None,
            turns: Some(true),
            rule,
        }
    }

    /// It turns the switch off, however it is.
    pub fn turns_off(rule: Rule) -> Mark
        ensures { result ≡ marks.turns_off rule }
    {
        Mark {
            needs: None,
            turns: Some(false),
            rule,
        }
    }

    /// It needs the switch on, and leaves it off.
    pub fn needs_on_turns_off(rule: Rule) -> Mark
        ensures { result ≡ marks.needs_on_turns_off rule }
    {
        Mark {
            needs: Some(true),
            turns: Some(false),
            rule,
        }
    }

    /// It needs the switch off, and leaves it on.
    pub fn needs_off_turns_on(rule: Rule) -> Mark
        ensures { result ≡ marks.needs_off_turns_on rule }
    {
        Mark {
            needs: Some(false),
            turns: Some(true),
            rule,
        }
    }
}

/// One mark, in state 1 where the switch is on and 0 where it is off. A break has the index of the mark's rule.
pub fn turn(state: u8, mark: Mark) -> Step
    requires { state < 2 }
    ensures step { result ≡ mark_step state mark }
    ensures stays { StaysBelow 2 result }
{
    match (state, mark.needs) {
        (0, Some(true)) | (1, Some(false)) => return Step::Bad(mark.rule.index()),
        _ => {}
    }
    match mark.turns {
        None => Step::Go(state),
        Some(true) => Step::Go(1),
        Some(false) => Step::Go(0),
    }
}
