//! The members, fields and cases of declared types.

ghost use Rattle.std.specs.Prelude.{◌≡◌, IsTrue};
ghost use Rattle.sil_grammar_tables.specs.Grammar.{alternatives, body};
ghost use Rattle.sil_grammar_tables.specs.Shortest.{shortest};
ghost use Rattle.sil_grammar_tables.specs.inner.Sections.{comes_behind, is_behind, section};
ghost use Rattle.sil_grammar_tables.specs.inner.Starts.{empty_choice, starts};
ghost use Rattle.sil_grammar_tables.specs.declared.sections.Section.TheVariants.{Modules};

use crate::entries::{PartEntry, ProductionEntry};
use crate::grammar::{Nonterminal, Production, Symbol, Terminal};
use crate::sections::Section;
use crate::types;
use sil_grammar_classes::{AtWord, Class, Keyword, Punctuation};

/// The entry of a production that no earlier section has.
#[inline(always)]
#[tactic(auto, unfolding(crate::specs::inner::Sections::tables))]
pub(crate) fn production_entry(production: Production) -> ProductionEntry
    requires { IsTrue (is_behind Modules production) }
    ensures section { result.section ≡ section production }
    ensures body { result.body.now ≡ body production }
    ensures starts { result.starts.now ≡ starts production }
{
    productions! { production in Declarations:
        MembersMore: [part Member, part Members], [word Final, word Deinit, word Init, word Weak, word Unowned, word Var, word Let, at HasStorage];
        MembersEnd: [], [];
        StoredMember: [at HasStorage, part Modified], [at HasStorage];
        FinalMember: [word Final, part Modified], [word Final];
        PlainMember: [part Variable], [word Weak, word Unowned, word Var, word Let];
        DeinitMember: [word Deinit], [word Deinit];
        InitMember: [word Init, mark LeftParen, mark RightParen], [word Init];
        ModifiedStored: [at HasStorage, part Modified], [at HasStorage];
        ModifiedFinal: [word Final, part Modified], [word Final];
        ModifiedVariable: [part Variable], [word Weak, word Unowned, word Var, word Let];
        WeakVariable: [word Weak, part Binding], [word Weak];
        UnownedVariable: [word Unowned, part Binding], [word Unowned];
        StrongVariable: [part Binding], [word Var, word Let];
        VarBinding: [word Var, any AnyWord, mark Colon, part Type, part Accessors], [word Var];
        LetBinding: [word Let, any AnyWord, mark Colon, part Type, part Accessors], [word Let];
        FieldsMore: [part Field, part Fields], [word Var, word Let, at HasStorage];
        FieldsEnd: [], [];
        StoredField: [at HasStorage, part Field], [at HasStorage];
        PlainField: [part Binding], [word Var, word Let];
        AccessorsSome: [mark LeftBrace, word Get, part Setter, mark RightBrace], [mark LeftBrace];
        AccessorsNone: [], [];
        SetterSome: [word Set], [word Set];
        SetterNone: [], [];
        CasesMore: [word Case, any AnyWord, part Payload, part Cases], [word Case];
        CasesEnd: [], [];
        _ => types::production_entry(production)
    }
}

/// The entry of a part that no earlier section has.
#[tactic(auto, unfolding(crate::specs::inner::Sections::tables))]
pub(crate) fn part_entry(part: Nonterminal) -> PartEntry
    requires { IsTrue (comes_behind Modules part) }
    ensures alternatives { result.alternatives.now ≡ alternatives part }
    ensures empty { result.empty_choice ≡ empty_choice part }
    ensures shortest { result.shortest ≡ shortest part }
{
    parts! { part:
        Members: [MembersMore, MembersEnd], MembersEnd, MembersEnd;
        Member: [StoredMember, FinalMember, PlainMember, DeinitMember, InitMember], none, DeinitMember;
        Modified: [ModifiedStored, ModifiedFinal, ModifiedVariable], none, ModifiedVariable;
        Variable: [WeakVariable, UnownedVariable, StrongVariable], none, StrongVariable;
        Binding: [VarBinding, LetBinding], none, VarBinding;
        Fields: [FieldsMore, FieldsEnd], FieldsEnd, FieldsEnd;
        Field: [StoredField, PlainField], none, PlainField;
        Accessors: [AccessorsSome, AccessorsNone], AccessorsNone, AccessorsNone;
        Setter: [SetterSome, SetterNone], SetterNone, SetterNone;
        Cases: [CasesMore, CasesEnd], CasesEnd, CasesEnd;
        _ => types::part_entry(part)
    }
}
