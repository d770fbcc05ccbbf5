//! Why a module is refused, before and behind the look at its values.

ghost use Rattle.std.specs.Prelude.{◌≡◌};
ghost use Rattle.sil_verifier_accepted.specs.declared.accepted_modules.refusals.StaticRefusal.TheVariants.{Memory};

use sil_ast::{Exhausted, FuncId};
use sil_rules::{LimitWord, Rule, RuleFault};
use type_check::TypingFault;

/// Why a module is refused before any value is looked at.
#[derive(Clone, Copy, Debug, PartialEq, Eq)]
pub enum StaticRefusal {
    /// An item breaks one of 101 to 104. Items are numbered from 0 over declarations, functions and vtables, in that order.
    Item { rule: Rule, item: u32 },
    /// A type exceeds the limit on depth or on leaves.
    Limit { what: LimitWord },
    /// One of 201 to 212 is broken.
    Typing { fault: TypingFault },
    /// There is no memory left.
    Memory,
}

impl From<Exhausted> for StaticRefusal {
    ghost from_gives = { λ _ e. e ≡ Memory };

    fn from(_exhausted: Exhausted) -> StaticRefusal {
        StaticRefusal::Memory
    }
}

/// Why a module is refused whose items, types and typing are right.
#[derive(Drop)]
pub enum ValueRefusal {
    /// One of 301 to 305, 401 to 404, 501 to 505 and 601 to 611 is broken in the function.
    Rule { function: FuncId, fault: RuleFault },
    /// There is no memory left.
    Memory,
}
