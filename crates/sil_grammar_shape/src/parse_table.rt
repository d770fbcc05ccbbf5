//! The parse table: the production of each part at each lookahead, found when it's first asked for.

ghost use Rattle.std.specs.Prelude.{◌≡◌, ◌*◌, ◌<◌, None, length, replicate, IfOk};
ghost use Rattle.sil_grammar_shape.specs.inner.Choice.{choose};
ghost use Rattle.sil_grammar_shape.specs.inner.ParseTable.{part_number, place, IsParseTable};
ghost use Rattle.sil_grammar_shape.specs.declared.parse_table.TheConstants.{LOOKAHEADS, PARTS};

use crate::choice::choose;
use crate::lookahead::Lookahead;
use instruction_table::INSTRUCTION_COUNT;
use sil_grammar_classes::Class;
use sil_grammar_tables::{Nonterminal, Production};
use std::alloc::{AllocError, Global};

/// How many parts the grammar has.
const PARTS: usize = 82;

/// How many lookaheads there are: the end and each class but the mnemonics, and each mnemonic.
const LOOKAHEADS: usize = 80 + INSTRUCTION_COUNT;

#[tactic(auto, unfolding(crate::specs::inner::ParseTable::part_number))]
fn part_number(part: Nonterminal) -> usize
    ensures { result ≡ part_number part }
{
    part as usize
}

/// Where the production of a part stands: in the row of the lookahead, in the column of the part.
#[tactic(auto, unfolding(crate::specs::inner::ParseTable::place))]
fn place(part: Nonterminal, look: Lookahead) -> usize
    ensures value { result ≡ place part look.class }
    ensures inside { result < LOOKAHEADS * PARTS }
{
    look.number * PARTS + part_number(part)
}

/// The productions that were asked for so far. A gap is one that wasn't, or a part that has none at a lookahead.
#[derive(Drop)]
pub(crate) struct ParseTable {
    known: Vec<Option<Production>>,
    ghost sized: { length known.items ≡ LOOKAHEADS * PARTS },
    ghost right: { ∥ IsParseTable known.items ∥₁ },
}

impl ParseTable {
    /// A table in which nothing is known.
    pub fn new(alloc: Global) -> Result<ParseTable, AllocError>
        ensures { IfOk result (λ table. table.known.items ≡ replicate (LOOKAHEADS * PARTS) None) }
    {
        let known = vec![in alloc; None; LOOKAHEADS * PARTS]?;
        Ok(ParseTable { known })
    }

    /// The production of a part that is taken at a lookahead.
    pub fn predict(&mut self, part: Nonterminal, look: Lookahead) -> Option<Production>
        ensures { result ≡ choose part look.class }
    {
        let at = place(part, look);
        match self.known[at] {
            Some(production) => Some(production),
            None => self.fill(at, part, look.class),
        }
    }

    /// Finds the production of a part before a class or the end, and keeps it in its place.
    #[cold]
    fn fill(&mut self, at: usize, part: Nonterminal, class: Option<Class>) -> Option<Production>
        requires place { at ≡ place part class }
        requires inside { at < LOOKAHEADS * PARTS }
        ensures { result ≡ choose part class }
    {
        let production = choose(part, class);
        self.known[at] = production;
        production
    }
}
