//! The tables, asked by part and by production. Each call takes no memory.

ghost use Rattle.std.specs.Prelude.{◌≡◌};
ghost use Rattle.instruction_table.specs.declared.op.Op.{Op};
ghost use Rattle.sil_grammar_tables.specs.Grammar.{alternatives, body};
ghost use Rattle.sil_grammar_tables.specs.Shortest.{shortest};
ghost use Rattle.sil_grammar_tables.specs.inner.Sections.{section};
ghost use Rattle.sil_grammar_tables.specs.inner.Starts.{empty_choice, starts};
ghost use Rattle.sil_grammar_tables.specs.declared.grammar.Production.TheVariants.{Row};

use crate::grammar::{Nonterminal, Production, Symbol, Terminal};
use crate::modules;
use crate::sections::Section;

/// The productions that write a part. Those of rows are told by their mnemonics alone.
pub fn alternatives(part: Nonterminal) -> &'static [Production]
    ensures { result.now ≡ alternatives part }
{
    modules::part_entry(part).alternatives
}

/// The production by which a part may be empty.
pub fn empty_choice(part: Nonterminal) -> Option<Production>
    ensures { result ≡ empty_choice part }
{
    modules::part_entry(part).empty_choice
}

/// The production of a part that leads to the fewest tokens.
#[inline]
pub fn shortest(part: Nonterminal) -> Production
    ensures { result ≡ shortest part }
{
    modules::part_entry(part).shortest
}

/// What a production writes that isn't the row of an instruction.
#[inline]
pub(crate) fn fixed_body(production: Production) -> &'static [Symbol]
    requires { (op : Op) → production ≡ Row op → ⊥ }
    ensures { result.now ≡ body production }
{
    modules::production_entry(production).body
}

/// What a text of a production begins with that is not empty. Rows are told by their mnemonics alone.
#[tactic(auto, unfolding(crate::specs::inner::Starts::starts))]
pub fn starts(production: Production) -> &'static [Terminal]
    ensures { result.now ≡ starts production }
{
    match production {
        Production::Row(_) => &[],
        _ => modules::production_entry(production).starts,
    }
}

/// The section of a production that isn't the row of an instruction.
#[inline]
pub fn section(production: Production) -> Section
    requires { (op : Op) → production ≡ Row op → ⊥ }
    ensures { result ≡ section production }
{
    modules::production_entry(production).section
}
