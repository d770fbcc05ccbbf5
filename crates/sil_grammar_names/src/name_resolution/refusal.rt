//! Why a written module stands for no module.

ghost use Rattle.std.specs.Prelude.{◌≡◌};
ghost use Rattle.sil_grammar_names.specs.declared.name_resolution.refusal.NameRefusal.TheVariants.{Memory};

use sil_ast::Exhausted;
use sil_grammar_tree::Fault;

/// Why a written module stands for no module.
#[derive(Clone, Copy, Debug, PartialEq, Eq)]
pub enum NameRefusal {
    /// A name is defined twice, or used and not defined; of all such names it is the first in the text.
    Name(Fault),
    /// There was no memory left.
    Memory,
}

impl From<Exhausted> for NameRefusal {
    ghost from_gives = { λ _ e. e ≡ Memory };

    fn from(_exhausted: Exhausted) -> NameRefusal {
        NameRefusal::Memory
    }
}
