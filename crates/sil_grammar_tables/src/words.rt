//! Flags, words in brackets, and words for a debugger.

ghost use Rattle.std.specs.Prelude.{◌≡◌, IsTrue};
ghost use Rattle.sil_grammar_tables.specs.Grammar.{alternatives, body};
ghost use Rattle.sil_grammar_tables.specs.Shortest.{shortest};
ghost use Rattle.sil_grammar_tables.specs.inner.Sections.{comes_behind, is_behind, section};
ghost use Rattle.sil_grammar_tables.specs.inner.Starts.{empty_choice, starts};
ghost use Rattle.sil_grammar_tables.specs.declared.sections.Section.TheVariants.{Operands};

use crate::entries::{PartEntry, ProductionEntry};
use crate::grammar::{Nonterminal, Production, Symbol, Terminal};
use crate::sections::Section;
use sil_grammar_classes::{Class, Keyword, Punctuation};

/// The entry of a production that no earlier section has.
#[inline(always)]
#[tactic(auto, unfolding(crate::specs::inner::Sections::tables))]
pub(crate) fn production_entry(production: Production) -> ProductionEntry
    requires { IsTrue (is_behind Operands production) }
    ensures section { result.section ≡ section production }
    ensures body { result.body.now ≡ body production }
    ensures starts { result.starts.now ≡ starts production }
{
    productions! { production in Words:
        FlagsSome: [mark LeftBracket, part FirstFlag], [mark LeftBracket];
        FlagsNone: [], [];
        LexicalFirst: [word Lexical, mark RightBracket, part VarDeclAfter], [word Lexical];
        VarDeclFirst: [word VarDecl, mark RightBracket, part LexicalAfter], [word VarDecl];
        VarDeclAfterSome: [mark LeftBracket, word VarDecl, mark RightBracket], [mark LeftBracket];
        VarDeclAfterNone: [], [];
        LexicalAfterSome: [mark LeftBracket, word Lexical, mark RightBracket], [mark LeftBracket];
        LexicalAfterNone: [], [];
        QualifierSome: [mark LeftBracket, part QualifierWord, mark RightBracket], [mark LeftBracket];
        QualifierNone: [], [];
        QualifierCopy: [word Copy], [word Copy];
        QualifierTake: [word Take], [word Take];
        QualifierTrivial: [word Trivial], [word Trivial];
        QualifierInit: [word Init], [word Init];
        QualifierAssign: [word Assign], [word Assign];
        TakeFlagSome: [mark LeftBracket, word Take, mark RightBracket], [mark LeftBracket];
        TakeFlagNone: [], [];
        InitFlagSome: [mark LeftBracket, part InitWord, mark RightBracket], [mark LeftBracket];
        InitFlagNone: [], [];
        InitShort: [word Init], [word Init];
        InitLong: [word Initialization], [word Initialization];
        DebugSome: [mark Comma, part DebugPart], [mark Comma];
        DebugNone: [], [];
        DebugLet: [word Let, part DebugAfterBinding], [word Let];
        DebugVar: [word Var, part DebugAfterBinding], [word Var];
        DebugRest: [part DebugNamePart], [word Name, word Argno, word Expr];
        DebugAfterBindingSome: [mark Comma, part DebugNamePart], [mark Comma];
        DebugAfterBindingNone: [], [];
        DebugName: [word Name, any AnyText, part DebugAfterName], [word Name];
        DebugNoName: [part DebugNumberPart], [word Argno, word Expr];
        DebugAfterNameSome: [mark Comma, part DebugNumberPart], [mark Comma];
        DebugAfterNameNone: [], [];
        DebugNumber: [word Argno, class Number, part DebugAfterNumber], [word Argno];
        DebugNoNumber: [part DebugDerefPart], [word Expr];
        DebugAfterNumberSome: [mark Comma, part DebugDerefPart], [mark Comma];
        DebugAfterNumberNone: [], [];
        DebugDeref: [word Expr, word OpDeref], [word Expr];
        _ => unreachable!()
    }
}

/// The entry of a part that no earlier section has.
#[tactic(auto, unfolding(crate::specs::inner::Sections::tables))]
pub(crate) fn part_entry(part: Nonterminal) -> PartEntry
    requires { IsTrue (comes_behind Operands part) }
    ensures alternatives { result.alternatives.now ≡ alternatives part }
    ensures empty { result.empty_choice ≡ empty_choice part }
    ensures shortest { result.shortest ≡ shortest part }
{
    parts! { part:
        Flags: [FlagsSome, FlagsNone], FlagsNone, FlagsNone;
        FirstFlag: [LexicalFirst, VarDeclFirst], none, LexicalFirst;
        VarDeclAfter: [VarDeclAfterSome, VarDeclAfterNone], VarDeclAfterNone, VarDeclAfterNone;
        LexicalAfter: [LexicalAfterSome, LexicalAfterNone], LexicalAfterNone, LexicalAfterNone;
        Qualifier: [QualifierSome, QualifierNone], QualifierNone, QualifierNone;
        QualifierWord: [QualifierCopy, QualifierTake, QualifierTrivial, QualifierInit, QualifierAssign], none, QualifierCopy;
        TakeFlag: [TakeFlagSome, TakeFlagNone], TakeFlagNone, TakeFlagNone;
        InitFlag: [InitFlagSome, InitFlagNone], InitFlagNone, InitFlagNone;
        InitWord: [InitShort, InitLong], none, InitShort;
        Debug: [DebugSome, DebugNone], DebugNone, DebugNone;
        DebugPart: [DebugLet, DebugVar, DebugRest], none, DebugLet;
        DebugAfterBinding: [DebugAfterBindingSome, DebugAfterBindingNone], DebugAfterBindingNone, DebugAfterBindingNone;
        DebugNamePart: [DebugName, DebugNoName], none, DebugName;
        DebugAfterName: [DebugAfterNameSome, DebugAfterNameNone], DebugAfterNameNone, DebugAfterNameNone;
        DebugNumberPart: [DebugNumber, DebugNoNumber], none, DebugNumber;
        DebugAfterNumber: [DebugAfterNumberSome, DebugAfterNumberNone], DebugAfterNumberNone, DebugAfterNumberNone;
        DebugDerefPart: [DebugDeref], none, DebugDeref;
        _ => unreachable!()
    }
}
