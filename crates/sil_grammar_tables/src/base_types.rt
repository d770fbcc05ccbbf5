//! Names of types, builtin integers and `Optional<T>`.

ghost use Rattle.std.specs.Prelude.{◌≡◌, IsTrue};
ghost use Rattle.sil_grammar_tables.specs.Grammar.{alternatives, body};
ghost use Rattle.sil_grammar_tables.specs.Shortest.{shortest};
ghost use Rattle.sil_grammar_tables.specs.inner.Sections.{comes_behind, is_behind, section};
ghost use Rattle.sil_grammar_tables.specs.inner.Starts.{empty_choice, starts};
ghost use Rattle.sil_grammar_tables.specs.declared.sections.Section.TheVariants.{Types};

use crate::entries::{PartEntry, ProductionEntry};
use crate::functions;
use crate::grammar::{Nonterminal, Production, Symbol, Terminal};
use crate::sections::Section;
use sil_grammar_classes::{Class, Keyword, Punctuation};

/// The entry of a production that no earlier section has.
#[inline(always)]
#[tactic(auto, unfolding(crate::specs::inner::Sections::tables))]
pub(crate) fn production_entry(production: Production) -> ProductionEntry
    requires { IsTrue (is_behind Types production) }
    ensures section { result.section ≡ section production }
    ensures body { result.body.now ≡ body production }
    ensures starts { result.starts.now ≡ starts production }
{
    productions! { production in BaseTypes:
        BuiltinBase: [word Builtin, part BuiltinTail], [word Builtin];
        OptionalBase: [word Optional, part OptionalTail], [word Optional];
        NamedBase: [any TypeWord], [any TypeWord];
        BuiltinInt: [mark Dot, part Width], [mark Dot];
        BuiltinName: [], [];
        OptionalOf: [mark Less, part Type, mark Greater], [mark Less];
        OptionalName: [], [];
        Width1: [word Int1], [word Int1];
        Width8: [word Int8], [word Int8];
        Width16: [word Int16], [word Int16];
        Width32: [word Int32], [word Int32];
        Width64: [word Int64], [word Int64];
        _ => functions::production_entry(production)
    }
}

/// The entry of a part that no earlier section has.
#[tactic(auto, unfolding(crate::specs::inner::Sections::tables))]
pub(crate) fn part_entry(part: Nonterminal) -> PartEntry
    requires { IsTrue (comes_behind Types part) }
    ensures alternatives { result.alternatives.now ≡ alternatives part }
    ensures empty { result.empty_choice ≡ empty_choice part }
    ensures shortest { result.shortest ≡ shortest part }
{
    parts! { part:
        Base: [BuiltinBase, OptionalBase, NamedBase], none, NamedBase;
        BuiltinTail: [BuiltinInt, BuiltinName], BuiltinName, BuiltinName;
        OptionalTail: [OptionalOf, OptionalName], OptionalName, OptionalName;
        Width: [Width1, Width8, Width16, Width32, Width64], none, Width1;
        _ => functions::part_entry(part)
    }
}
