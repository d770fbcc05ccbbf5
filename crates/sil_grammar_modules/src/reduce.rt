//! What a production stands for, and the first fault in it by itself: the builders by sections of the grammar.

ghost use Rattle.std.specs.Prelude.{◌≡◌, ◌≤◌, length, IfOk, OnOk};
ghost use Rattle.sil_grammar_tables.specs.Grammar.{body};
ghost use Rattle.sil_grammar_values.specs.inner.PartFaults.{part_fault};
ghost use Rattle.sil_grammar_values.specs.inner.Reduced.{parts_of, reduced};

use sil_ast::Exhausted;
use sil_grammar_declarations::{reduce_declaration, reduce_module};
use sil_grammar_functions::{reduce_block, reduce_function, reduce_signature};
use sil_grammar_instructions::{reduce_operand, reduce_row, reduce_word};
use sil_grammar_tables::{Production, Section, section};
use sil_grammar_tree::Fault;
use sil_grammar_types::{reduce_base_type, reduce_type};
use sil_grammar_values::prepended::Prepended;
use sil_grammar_values::value::Value;
use std::alloc::Global;

/// Puts what a production stands for in the place of the values of its body, which are the first ones, and answers the
/// first fault in it by itself.
#[tactic(auto, unfolding(sil_grammar_values::specs::inner::Reduced::reduced))]
pub(crate) fn reduce(
    alloc: Global,
    production: Production,
    values: &mut Prepended<Value>,
) -> Result<Option<Fault>, Exhausted>
    requires { length (body production) ≤ length values.old }
    ensures values { OnOk result (values.new ≡ reduced production values.old) }
    ensures fault { IfOk result (λ fault. fault ≡ part_fault production (parts_of production values.old)) }
{
    match production {
        Production::Row(op) => reduce_row(alloc, op, values),
        _ => match section(production) {
            Section::Modules => reduce_module(alloc, production, values),
            Section::Declarations => reduce_declaration(alloc, production, values),
            Section::Types => reduce_type(alloc, production, values),
            Section::BaseTypes => reduce_base_type(alloc, production, values),
            Section::Functions => reduce_function(alloc, production, values),
            Section::Signatures => reduce_signature(alloc, production, values),
            Section::Blocks => reduce_block(alloc, production, values),
            Section::Operands => reduce_operand(alloc, production, values),
            Section::Words => reduce_word(alloc, production, values),
        },
    }
}
