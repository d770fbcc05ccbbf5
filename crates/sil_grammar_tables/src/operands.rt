//! Operands, edges and members.

ghost use Rattle.std.specs.Prelude.{◌≡◌, IsTrue};
ghost use Rattle.sil_grammar_tables.specs.Grammar.{alternatives, body};
ghost use Rattle.sil_grammar_tables.specs.Shortest.{shortest};
ghost use Rattle.sil_grammar_tables.specs.inner.Sections.{comes_behind, is_behind, section};
ghost use Rattle.sil_grammar_tables.specs.inner.Starts.{empty_choice, starts};
ghost use Rattle.sil_grammar_tables.specs.declared.sections.Section.TheVariants.{Blocks};

use crate::entries::{PartEntry, ProductionEntry};
use crate::grammar::{Nonterminal, Production, Symbol, Terminal};
use crate::sections::Section;
use crate::words;
use sil_grammar_classes::{Class, Keyword, Punctuation};

/// The entry of a production that no earlier section has.
#[inline(always)]
#[tactic(auto, unfolding(crate::specs::inner::Sections::tables))]
pub(crate) fn production_entry(production: Production) -> ProductionEntry
    requires { IsTrue (is_behind Blocks production) }
    ensures section { result.section ≡ section production }
    ensures body { result.body.now ≡ body production }
    ensures starts { result.starts.now ≡ starts production }
{
    productions! { production in Operands:
        WholeOperand: [class Percent, mark Colon, mark Dollar, part Star, part Type], [class Percent];
        OperandsSome: [part Operand, part MoreOperands], [class Percent];
        OperandsNone: [], [];
        MoreOperandsMore: [mark Comma, part Operand, part MoreOperands], [mark Comma];
        MoreOperandsEnd: [], [];
        WholeEdge: [any AnyWord, part EdgeArgs], [any AnyWord];
        EdgeArgsSome: [mark LeftParen, part Operand, part MoreOperands, mark RightParen], [mark LeftParen];
        EdgeArgsNone: [], [];
        SwitchCase: [word Case, part EnumElement, mark Colon, any AnyWord, part SwitchMore], [word Case];
        SwitchDefault: [word Default, any AnyWord], [word Default];
        SwitchMoreSome: [mark Comma, part SwitchPart], [mark Comma];
        SwitchMoreEnd: [], [];
        WholeEnumElement: [mark Hash, any AnyWord, mark Dot, any AnyWord, mark Bang, word Enumelt, part ElementSuffix], [mark Hash];
        SuffixSome: [mark Dot, class Number], [mark Dot];
        SuffixNone: [], [];
        EnumOperandSome: [mark Comma, part Operand], [mark Comma];
        EnumOperandNone: [], [];
        WholeMemberName: [mark Hash, any AnyWord, mark Dot, any AnyWord], [mark Hash];
        _ => words::production_entry(production)
    }
}

/// The entry of a part that no earlier section has.
#[tactic(auto, unfolding(crate::specs::inner::Sections::tables))]
pub(crate) fn part_entry(part: Nonterminal) -> PartEntry
    requires { IsTrue (comes_behind Blocks part) }
    ensures alternatives { result.alternatives.now ≡ alternatives part }
    ensures empty { result.empty_choice ≡ empty_choice part }
    ensures shortest { result.shortest ≡ shortest part }
{
    parts! { part:
        Operand: [WholeOperand], none, WholeOperand;
        Operands: [OperandsSome, OperandsNone], OperandsNone, OperandsNone;
        MoreOperands: [MoreOperandsMore, MoreOperandsEnd], MoreOperandsEnd, MoreOperandsEnd;
        Edge: [WholeEdge], none, WholeEdge;
        EdgeArgs: [EdgeArgsSome, EdgeArgsNone], EdgeArgsNone, EdgeArgsNone;
        SwitchPart: [SwitchCase, SwitchDefault], none, SwitchDefault;
        SwitchMore: [SwitchMoreSome, SwitchMoreEnd], SwitchMoreEnd, SwitchMoreEnd;
        EnumElement: [WholeEnumElement], none, WholeEnumElement;
        ElementSuffix: [SuffixSome, SuffixNone], SuffixNone, SuffixNone;
        EnumOperand: [EnumOperandSome, EnumOperandNone], EnumOperandNone, EnumOperandNone;
        MemberName: [WholeMemberName], none, WholeMemberName;
        _ => words::part_entry(part)
    }
}
