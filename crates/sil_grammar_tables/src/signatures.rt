//! Parameters and results of function types.

ghost use Rattle.std.specs.Prelude.{◌≡◌, IsTrue};
ghost use Rattle.sil_grammar_tables.specs.Grammar.{alternatives, body};
ghost use Rattle.sil_grammar_tables.specs.Shortest.{shortest};
ghost use Rattle.sil_grammar_tables.specs.inner.Sections.{comes_behind, is_behind, section};
ghost use Rattle.sil_grammar_tables.specs.inner.Starts.{empty_choice, starts};
ghost use Rattle.sil_grammar_tables.specs.declared.sections.Section.TheVariants.{Functions};

use crate::blocks;
use crate::entries::{PartEntry, ProductionEntry};
use crate::grammar::{Nonterminal, Production, Symbol, Terminal};
use crate::sections::Section;
use sil_grammar_classes::{AtWord, Class, Punctuation};

/// The entry of a production that no earlier section has.
#[inline(always)]
#[tactic(auto, unfolding(crate::specs::inner::Sections::tables))]
pub(crate) fn production_entry(production: Production) -> ProductionEntry
    requires { IsTrue (is_behind Functions production) }
    ensures section { result.section ≡ section production }
    ensures body { result.body.now ≡ body production }
    ensures starts { result.starts.now ≡ starts production }
{
    productions! { production in Signatures:
        ParamsSome: [part Param, part MoreParams],
            [any AnyWord, at SilWeak, at SilUnowned, at Owned, at Guaranteed, at Inout, at In, at InGuaranteed, mark LeftParen];
        ParamsNone: [], [];
        MoreParamsMore: [mark Comma, part Param, part MoreParams], [mark Comma];
        MoreParamsEnd: [], [];
        ParamOwned: [at Owned, part Type], [at Owned];
        ParamGuaranteed: [at Guaranteed, part Type], [at Guaranteed];
        ParamInout: [at Inout, part Type], [at Inout];
        ParamIn: [at In, part Type], [at In];
        ParamInGuaranteed: [at InGuaranteed, part Type], [at InGuaranteed];
        ParamPlain: [part Type], [any AnyWord, at SilWeak, at SilUnowned, mark LeftParen];
        ResultList: [mark LeftParen, part ResultsInside, mark RightParen], [mark LeftParen];
        ResultOwned: [at Owned, part Type], [at Owned];
        ResultOut: [at Out, part Type], [at Out];
        ResultPlain: [part OpenType], [any AnyWord, at SilWeak, at SilUnowned];
        InsideSome: [part Given, part MoreGivens], [any AnyWord, at SilWeak, at SilUnowned, at Owned, at Out, mark LeftParen];
        InsideNone: [], [];
        MoreGivensMore: [mark Comma, part Given, part MoreGivens], [mark Comma];
        MoreGivensEnd: [], [];
        GivenOwned: [at Owned, part Type], [at Owned];
        GivenOut: [at Out, part Type], [at Out];
        GivenPlain: [part Type], [any AnyWord, at SilWeak, at SilUnowned, mark LeftParen];
        _ => blocks::production_entry(production)
    }
}

/// The entry of a part that no earlier section has.
#[tactic(auto, unfolding(crate::specs::inner::Sections::tables))]
pub(crate) fn part_entry(part: Nonterminal) -> PartEntry
    requires { IsTrue (comes_behind Functions part) }
    ensures alternatives { result.alternatives.now ≡ alternatives part }
    ensures empty { result.empty_choice ≡ empty_choice part }
    ensures shortest { result.shortest ≡ shortest part }
{
    parts! { part:
        Params: [ParamsSome, ParamsNone], ParamsNone, ParamsNone;
        MoreParams: [MoreParamsMore, MoreParamsEnd], MoreParamsEnd, MoreParamsEnd;
        Param: [ParamOwned, ParamGuaranteed, ParamInout, ParamIn, ParamInGuaranteed, ParamPlain], none, ParamPlain;
        Results: [ResultList, ResultOwned, ResultOut, ResultPlain], none, ResultPlain;
        ResultsInside: [InsideSome, InsideNone], InsideNone, InsideNone;
        MoreGivens: [MoreGivensMore, MoreGivensEnd], MoreGivensEnd, MoreGivensEnd;
        Given: [GivenOwned, GivenOut, GivenPlain], none, GivenPlain;
        _ => blocks::part_entry(part)
    }
}
