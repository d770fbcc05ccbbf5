//! What the productions of types stand for.

ghost use Rattle.std.specs.Prelude.{◌≡◌, ◌≤◌, length, IfOk, OnOk};
ghost use Rattle.sil_grammar_tables.specs.Grammar.{body};
ghost use Rattle.sil_grammar_tables.specs.declared.sections.Section.TheVariants.{Types};
ghost use Rattle.sil_grammar_values.specs.inner.PartFaults.{part_fault};
ghost use Rattle.sil_grammar_values.specs.inner.Reduced.{parts_of, reduced};
ghost use Rattle.sil_grammar_tables.specs.inner.Sections.{section};

use crate::build_types;
use sil_ast::Exhausted;
use sil_grammar_tables::Production;
use sil_grammar_tree::Fault;
use sil_grammar_values::nothing::skip;
use sil_grammar_values::prepended::Prepended;
use sil_grammar_values::put::{pass, put_nothing};
use sil_grammar_values::value::Value;
use std::alloc::Global;

/// Puts what a production of types stands for in the place of the values of its body.
#[tactic(auto, unfolding(sil_grammar_values::specs::inner::Reduced::reducing, sil_grammar_tables::specs::inner::Sections::telling))]
pub fn reduce_type(
    alloc: Global,
    production: Production,
    values: &mut Prepended<Value>,
) -> Result<Option<Fault>, Exhausted>
    requires section { section production ≡ Types }
    requires parts { length (body production) ≤ length values.old }
    ensures values { OnOk result (values.new ≡ reduced production values.old) }
    ensures fault { IfOk result (λ fault. fault ≡ part_fault production (parts_of production values.old)) }
{
    match production {
        Production::ParenType => return build_types::paren_type(alloc, values),
        Production::BaseOpen => return build_types::base_type(alloc, values),
        Production::WeakOpen => return build_types::weak_type(alloc, values),
        Production::UnownedOpen => return build_types::unowned_type(alloc, values),
        Production::QuestionsMore => build_types::more_questions(alloc, values)?,
        Production::QuestionsEnd => build_types::no_questions(alloc, values)?,
        Production::TypesSome => build_types::types_before(alloc, values)?,
        Production::MoreTypesMore => {
            skip(values);
            build_types::types_before(alloc, values)?
        }
        Production::TypesNone | Production::MoreTypesEnd => {
            build_types::no_more_types(alloc, values)?
        }
        Production::PayloadSome => return build_types::payload(alloc, values),
        Production::PayloadNone => put_nothing(values)?,
        Production::BareType => pass(values),
        _ => unreachable!(),
    }
    Ok(None)
}
