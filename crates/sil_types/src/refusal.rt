//! Why a module has no type table.

ghost use Rattle.std.specs.Prelude.{◌≡◌};
ghost use Rattle.sil_types.specs.declared.refusal.TypeRefusal.TheVariants.{Memory};

use sil_ast::Exhausted;
use sil_rules::{LimitWord, Rule};

/// Why a module has no type table.
#[derive(Clone, Copy, Debug, PartialEq, Eq)]
pub enum TypeRefusal {
    /// An item breaks one of 101 to 104. Items are numbered from 0 over declarations, functions and vtables, in that order.
    Rule { rule: Rule, item: u32 },
    /// A type exceeds the limit on depth or on leaves.
    Limit { what: LimitWord },
    /// There is no memory left.
    Memory,
}

impl From<Exhausted> for TypeRefusal {
    ghost from_gives = { λ _ e. e ≡ Memory };

    fn from(_exhausted: Exhausted) -> TypeRefusal {
        TypeRefusal::Memory
    }
}
