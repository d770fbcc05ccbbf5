//! The faults of what is counted over many parts of a text.

ghost use Rattle.std.specs.Prelude.{◌≡◌};
ghost use Rattle.sil_rules.specs.declared.limits.TheConstants.{ARGUMENTS};
ghost use Rattle.sil_rules.specs.declared.limit_word.LimitWord.TheVariants as limit;
ghost use Rattle.sil_grammar_tree.specs.WrittenTree.Faults as faults;
ghost use Rattle.sil_grammar_tree.specs.WrittenTree.Places as placed;
ghost use Rattle.sil_grammar_values.specs.inner.PartFaults as said;

use crate::counted_parts::{Attributes, Declarations, Functions, Instructions, Values};
use crate::found::held_place;
use sil_grammar_tree::{Fault, WrittenBlock, WrittenItem, WrittenToken, earlier, passed};
use sil_grammar_values::faults::too_many;
use sil_grammar_values::prepended::Prepended;
use sil_rules::{LimitWord, limits};

/// The fault of a function's words in brackets, of which `ossa` isn't counted.
#[tactic(auto, using(crate::proofs::FoundLemmas::kept_one_by_one))]
pub(crate) fn too_many_attributes(words: &Prepended<WrittenToken>) -> Option<Fault>
    ensures { result ≡ faults.passed limit.Arguments ARGUMENTS (placed.attribute_places words.now) }
{
    passed(
        LimitWord::Arguments,
        held_place::<Attributes>(words, limits::ARGUMENTS),
    )
}

#[tactic(auto, using(crate::proofs::FoundLemmas::decls_one_by_one, crate::proofs::FoundLemmas::functions_one_by_one))]
pub(crate) fn module_fault(items: &Prepended<WrittenItem>) -> Option<Fault>
    ensures { result ≡ said.module_fault items.now }
{
    earlier(
        passed(
            LimitWord::Declarations,
            held_place::<Declarations>(items, limits::DECLARATIONS),
        ),
        passed(
            LimitWord::Functions,
            held_place::<Functions>(items, limits::FUNCTIONS),
        ),
    )
}

pub(crate) fn body_fault(blocks: &Prepended<WrittenBlock>) -> Option<Fault>
    ensures { result ≡ said.body_fault blocks.now }
{
    earlier(
        too_many(LimitWord::Blocks, blocks, limits::BLOCKS),
        earlier(
            passed(
                LimitWord::Instructions,
                held_place::<Instructions>(blocks, limits::INSTRUCTIONS),
            ),
            passed(
                LimitWord::Values,
                held_place::<Values>(blocks, limits::VALUES),
            ),
        ),
    )
}
