//! What a function has before its blocks, and the frame of its type.

ghost use Rattle.std.specs.Prelude.{◌≡◌, IsTrue};
ghost use Rattle.sil_grammar_tables.specs.Grammar.{alternatives, body};
ghost use Rattle.sil_grammar_tables.specs.Shortest.{shortest};
ghost use Rattle.sil_grammar_tables.specs.inner.Sections.{comes_behind, is_behind, section};
ghost use Rattle.sil_grammar_tables.specs.inner.Starts.{empty_choice, starts};
ghost use Rattle.sil_grammar_tables.specs.declared.sections.Section.TheVariants.{BaseTypes};

use crate::entries::{PartEntry, ProductionEntry};
use crate::grammar::{Nonterminal, Production, Symbol, Terminal};
use crate::sections::Section;
use crate::signatures;
use sil_grammar_classes::{AtWord, Class, Keyword, Punctuation};

/// The entry of a production that no earlier section has.
#[inline(always)]
#[tactic(auto, unfolding(crate::specs::inner::Sections::tables))]
pub(crate) fn production_entry(production: Production) -> ProductionEntry
    requires { IsTrue (is_behind BaseTypes production) }
    ensures section { result.section ≡ section production }
    ensures body { result.body.now ≡ body production }
    ensures starts { result.starts.now ≡ starts production }
{
    productions! { production in Functions:
        LinkageHidden: [word Hidden], [word Hidden];
        LinkagePrivate: [word Private], [word Private];
        LinkageShared: [word Shared], [word Shared];
        LinkagePublic: [word Public], [word Public];
        LinkagePlain: [], [];
        AttributesMore: [mark LeftBracket, any AnyWord, mark RightBracket, part Attributes], [mark LeftBracket];
        AttributesEnd: [], [];
        BodySome: [mark LeftBrace, part Block, part Blocks, mark RightBrace], [mark LeftBrace];
        BodyNone: [], [];
        WholeFunctionType: [at Convention, mark LeftParen, part Convention, mark RightParen,
            mark LeftParen, part Params, mark RightParen, mark Arrow, part Results],
            [at Convention];
        Thin: [word Thin], [word Thin];
        Method: [word Method], [word Method];
        _ => signatures::production_entry(production)
    }
}

/// The entry of a part that no earlier section has.
#[tactic(auto, unfolding(crate::specs::inner::Sections::tables))]
pub(crate) fn part_entry(part: Nonterminal) -> PartEntry
    requires { IsTrue (comes_behind BaseTypes part) }
    ensures alternatives { result.alternatives.now ≡ alternatives part }
    ensures empty { result.empty_choice ≡ empty_choice part }
    ensures shortest { result.shortest ≡ shortest part }
{
    parts! { part:
        Linkage: [LinkageHidden, LinkagePrivate, LinkageShared, LinkagePublic, LinkagePlain], LinkagePlain, LinkagePlain;
        Attributes: [AttributesMore, AttributesEnd], AttributesEnd, AttributesEnd;
        Body: [BodySome, BodyNone], BodyNone, BodyNone;
        FunctionType: [WholeFunctionType], none, WholeFunctionType;
        Convention: [Thin, Method], none, Thin;
        _ => signatures::part_entry(part)
    }
}
