//! Blocks, their instructions in a row, and names.

ghost use Rattle.std.specs.Prelude.{◌≡◌, IsTrue};
ghost use Rattle.sil_grammar_tables.specs.Grammar.{alternatives, body};
ghost use Rattle.sil_grammar_tables.specs.Shortest.{shortest};
ghost use Rattle.sil_grammar_tables.specs.inner.Sections.{comes_behind, is_behind, section};
ghost use Rattle.sil_grammar_tables.specs.inner.Starts.{empty_choice, starts};
ghost use Rattle.sil_grammar_tables.specs.declared.sections.Section.TheVariants.{Signatures};

use crate::entries::{PartEntry, ProductionEntry};
use crate::grammar::{Nonterminal, Production, Symbol, Terminal};
use crate::operands;
use crate::sections::Section;
use instruction_table::Op;
use sil_grammar_classes::{AtWord, Class, Punctuation};

/// The entry of a production that no earlier section has.
#[inline(always)]
#[tactic(auto, unfolding(crate::specs::inner::Sections::tables))]
pub(crate) fn production_entry(production: Production) -> ProductionEntry
    requires { IsTrue (is_behind Signatures production) }
    ensures section { result.section ≡ section production }
    ensures body { result.body.now ≡ body production }
    ensures starts { result.starts.now ≡ starts production }
{
    productions! { production in Blocks:
        WholeBlock: [any AnyWord, part BlockArgs, mark Colon, part Code], [any AnyWord];
        BlocksMore: [part Block, part Blocks], [any AnyWord];
        BlocksEnd: [], [];
        BlockArgsSome: [mark LeftParen, part BlockArg, part MoreBlockArgs, mark RightParen], [mark LeftParen];
        BlockArgsNone: [], [];
        MoreBlockArgsMore: [mark Comma, part BlockArg, part MoreBlockArgs], [mark Comma];
        MoreBlockArgsEnd: [], [];
        WholeBlockArg: [class Percent, mark Colon, part Ownership, mark Dollar, part Star, part Type], [class Percent];
        OwnershipOwned: [at Owned], [at Owned];
        OwnershipGuaranteed: [at Guaranteed], [at Guaranteed];
        OwnershipNone: [], [];
        StarSome: [mark Star], [mark Star];
        StarNone: [], [];
        CodeInst: [part Inst, part Code], [any RowWord, class Percent, mark LeftParen];
        CodeEnd: [part Terminator], [any EndWord];
        InstOneName: [class Percent, mark Equals, part Row], [class Percent];
        InstNames: [mark LeftParen, part Names, mark RightParen, mark Equals, part Row], [mark LeftParen];
        InstUnnamed: [part Row], [any RowWord];
        NamesSome: [class Percent, part MoreNames], [class Percent];
        NamesNone: [], [];
        MoreNamesMore: [mark Comma, class Percent, part MoreNames], [mark Comma];
        MoreNamesEnd: [], [];
        BareNamesSome: [class Percent, part MoreNames], [class Percent];
        BareNamesNone: [], [];
        _ => operands::production_entry(production)
    }
}

/// The entry of a part that no earlier section has.
#[tactic(auto, unfolding(crate::specs::inner::Sections::tables))]
pub(crate) fn part_entry(part: Nonterminal) -> PartEntry
    requires { IsTrue (comes_behind Signatures part) }
    ensures alternatives { result.alternatives.now ≡ alternatives part }
    ensures empty { result.empty_choice ≡ empty_choice part }
    ensures shortest { result.shortest ≡ shortest part }
{
    parts! { part:
        Block: [WholeBlock], none, WholeBlock;
        Blocks: [BlocksMore, BlocksEnd], BlocksEnd, BlocksEnd;
        BlockArgs: [BlockArgsSome, BlockArgsNone], BlockArgsNone, BlockArgsNone;
        MoreBlockArgs: [MoreBlockArgsMore, MoreBlockArgsEnd], MoreBlockArgsEnd, MoreBlockArgsEnd;
        BlockArg: [WholeBlockArg], none, WholeBlockArg;
        Ownership: [OwnershipOwned, OwnershipGuaranteed, OwnershipNone], OwnershipNone, OwnershipNone;
        Star: [StarSome, StarNone], StarNone, StarNone;
        Code: [CodeInst, CodeEnd], none, CodeEnd;
        Inst: [InstOneName, InstNames, InstUnnamed], none, InstUnnamed;
        Names: [NamesSome, NamesNone], NamesNone, NamesNone;
        MoreNames: [MoreNamesMore, MoreNamesEnd], MoreNamesEnd, MoreNamesEnd;
        Row: [], none, Row Tuple;
        Terminator: [], none, Row Unreachable;
        BareNames: [BareNamesSome, BareNamesNone], BareNamesNone, BareNamesNone;
        _ => operands::part_entry(part)
    }
}
