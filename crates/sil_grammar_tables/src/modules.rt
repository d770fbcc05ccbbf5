//! Modules, their stage, imports and items.

ghost use Rattle.std.specs.Prelude.{◌≡◌};
ghost use Rattle.sil_grammar_tables.specs.Grammar.{alternatives, body};
ghost use Rattle.sil_grammar_tables.specs.Shortest.{shortest};
ghost use Rattle.sil_grammar_tables.specs.inner.Sections.{section};
ghost use Rattle.sil_grammar_tables.specs.inner.Starts.{empty_choice, starts};
ghost use Rattle.sil_grammar_tables.specs.declared.grammar.Production.TheVariants.{Row};
ghost use Rattle.instruction_table.specs.declared.op.Op.{Op as AnyOp};

use crate::declarations;
use crate::entries::{PartEntry, ProductionEntry};
use crate::grammar::{Nonterminal, Production, Symbol, Terminal};
use crate::sections::Section;
use instruction_table::Op;
use sil_grammar_classes::{Class, Keyword, Punctuation};

/// The entry of a production that is no row.
#[inline(always)]
#[tactic(auto, unfolding(crate::specs::inner::Sections::tables))]
pub(crate) fn production_entry(production: Production) -> ProductionEntry
    requires { (op : AnyOp) → production ≡ Row op → ⊥ }
    ensures section { result.section ≡ section production }
    ensures body { result.body.now ≡ body production }
    ensures starts { result.starts.now ≡ starts production }
{
    productions! { production in Modules:
        WholeModule: [part Stage, part Imports, part Items],
            [word SilStage, word Import, word Final, word Class, mnemonic Struct, mnemonic Enum, word Sil, word SilVtable];
        StageSome: [word SilStage, part StageWord], [word SilStage];
        StageNone: [], [];
        Raw: [word Raw], [word Raw];
        Canonical: [word Canonical], [word Canonical];
        ImportsMore: [word Import, any AnyWord, part Imports], [word Import];
        ImportsEnd: [], [];
        ItemsMore: [part Item, part Items], [word Final, word Class, mnemonic Struct, mnemonic Enum, word Sil, word SilVtable];
        ItemsEnd: [], [];
        FinalClass: [word Final, word Class, any AnyWord, part Superclass, mark LeftBrace, part Members, mark RightBrace], [word Final];
        PlainClass: [word Class, any AnyWord, part Superclass, mark LeftBrace, part Members, mark RightBrace], [word Class];
        StructItem: [mnemonic Struct, any AnyWord, mark LeftBrace, part Fields, mark RightBrace], [mnemonic Struct];
        EnumItem: [mnemonic Enum, any AnyWord, mark LeftBrace, part Cases, mark RightBrace], [mnemonic Enum];
        FunctionItem: [word Sil, part Linkage, part Attributes, any AnyAt, mark Colon, mark Dollar, part FunctionType, part Body], [word Sil];
        VtableItem: [word SilVtable, any AnyWord, mark LeftBrace, part VtableEntry, mark RightBrace], [word SilVtable];
        SuperclassSome: [mark Colon, any AnyWord], [mark Colon];
        SuperclassNone: [], [];
        EntrySome: [mark Hash, any AnyWord, mark Dot, word Deinit, mark Bang, word Destroyer, mark Colon, any AnyAt], [mark Hash];
        EntryNone: [], [];
        _ => declarations::production_entry(production)
    }
}

/// The entry of a part.
#[tactic(auto, unfolding(crate::specs::inner::Sections::tables))]
pub(crate) fn part_entry(part: Nonterminal) -> PartEntry
    ensures alternatives { result.alternatives.now ≡ alternatives part }
    ensures empty { result.empty_choice ≡ empty_choice part }
    ensures shortest { result.shortest ≡ shortest part }
{
    parts! { part:
        Module: [WholeModule], WholeModule, WholeModule;
        Stage: [StageSome, StageNone], StageNone, StageNone;
        StageWord: [Raw, Canonical], none, Raw;
        Imports: [ImportsMore, ImportsEnd], ImportsEnd, ImportsEnd;
        Items: [ItemsMore, ItemsEnd], ItemsEnd, ItemsEnd;
        Item: [FinalClass, PlainClass, StructItem, EnumItem, FunctionItem, VtableItem], none, StructItem;
        Superclass: [SuperclassSome, SuperclassNone], SuperclassNone, SuperclassNone;
        VtableEntry: [EntrySome, EntryNone], EntryNone, EntryNone;
        _ => declarations::part_entry(part)
    }
}
