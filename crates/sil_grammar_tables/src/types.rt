//! Types, and what stands around or behind a base type.

ghost use Rattle.std.specs.Prelude.{◌≡◌, IsTrue};
ghost use Rattle.sil_grammar_tables.specs.Grammar.{alternatives, body};
ghost use Rattle.sil_grammar_tables.specs.Shortest.{shortest};
ghost use Rattle.sil_grammar_tables.specs.inner.Sections.{comes_behind, is_behind, section};
ghost use Rattle.sil_grammar_tables.specs.inner.Starts.{empty_choice, starts};
ghost use Rattle.sil_grammar_tables.specs.declared.sections.Section.TheVariants.{Declarations};

use crate::base_types;
use crate::entries::{PartEntry, ProductionEntry};
use crate::grammar::{Nonterminal, Production, Symbol, Terminal};
use crate::sections::Section;
use sil_grammar_classes::{AtWord, Class, Punctuation};

/// The entry of a production that no earlier section has.
#[inline(always)]
#[tactic(auto, unfolding(crate::specs::inner::Sections::tables))]
pub(crate) fn production_entry(production: Production) -> ProductionEntry
    requires { IsTrue (is_behind Declarations production) }
    ensures section { result.section ≡ section production }
    ensures body { result.body.now ≡ body production }
    ensures starts { result.starts.now ≡ starts production }
{
    productions! { production in Types:
        PayloadSome: [mark LeftParen, part Type, part MoreTypes, mark RightParen], [mark LeftParen];
        PayloadNone: [], [];
        BareType: [part OpenType], [any AnyWord, at SilWeak, at SilUnowned];
        ParenType: [mark LeftParen, part Types, mark RightParen, part Questions], [mark LeftParen];
        BaseOpen: [part Base, part Questions], [any AnyWord];
        WeakOpen: [at SilWeak, part Type], [at SilWeak];
        UnownedOpen: [at SilUnowned, part Type], [at SilUnowned];
        QuestionsMore: [mark Question, part Questions], [mark Question];
        QuestionsEnd: [], [];
        TypesSome: [part Type, part MoreTypes], [any AnyWord, at SilWeak, at SilUnowned, mark LeftParen];
        TypesNone: [], [];
        MoreTypesMore: [mark Comma, part Type, part MoreTypes], [mark Comma];
        MoreTypesEnd: [], [];
        _ => base_types::production_entry(production)
    }
}

/// The entry of a part that no earlier section has.
#[tactic(auto, unfolding(crate::specs::inner::Sections::tables))]
pub(crate) fn part_entry(part: Nonterminal) -> PartEntry
    requires { IsTrue (comes_behind Declarations part) }
    ensures alternatives { result.alternatives.now ≡ alternatives part }
    ensures empty { result.empty_choice ≡ empty_choice part }
    ensures shortest { result.shortest ≡ shortest part }
{
    parts! { part:
        Payload: [PayloadSome, PayloadNone], PayloadNone, PayloadNone;
        Type: [BareType, ParenType], none, BareType;
        OpenType: [BaseOpen, WeakOpen, UnownedOpen], none, BaseOpen;
        Questions: [QuestionsMore, QuestionsEnd], QuestionsEnd, QuestionsEnd;
        Types: [TypesSome, TypesNone], TypesNone, TypesNone;
        MoreTypes: [MoreTypesMore, MoreTypesEnd], MoreTypesEnd, MoreTypesEnd;
        _ => base_types::part_entry(part)
    }
}
