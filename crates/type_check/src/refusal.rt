//! Why a module isn't typed.

ghost use Rattle.std.specs.Prelude.{◌≡◌};
ghost use Rattle.type_check.specs.declared.refusal.CheckRefusal.TheVariants.{Memory};

use sil_ast::{Exhausted, FuncId, PointId};
use sil_rules::Rule;

/// Why a module isn't typed.
#[derive(Clone, Copy, Debug, PartialEq, Eq)]
pub enum CheckRefusal {
    /// One of 201 to 212 is broken: at a function, at a point of a function, or at a vtable, counted from 0.
    Rule {
        rule: Rule,
        function: Option<FuncId>,
        point: Option<PointId>,
        vtable: Option<u32>,
    },
    /// There is no memory left.
    Memory,
}

impl From<Exhausted> for CheckRefusal {
    ghost from_gives = { λ _ e. e ≡ Memory };

    fn from(_exhausted: Exhausted) -> CheckRefusal {
        CheckRefusal::Memory
    }
}
