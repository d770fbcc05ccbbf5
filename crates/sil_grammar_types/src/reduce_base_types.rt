//! What the productions of base types stand for.

ghost use Rattle.std.specs.Prelude.{◌≡◌, ◌≤◌, length, IfOk, OnOk};
ghost use Rattle.sil_grammar_tables.specs.Grammar.{body};
ghost use Rattle.sil_grammar_tables.specs.declared.sections.Section.TheVariants.{BaseTypes};
ghost use Rattle.sil_grammar_values.specs.inner.PartFaults.{part_fault};
ghost use Rattle.sil_grammar_values.specs.inner.Reduced.{parts_of, reduced};
ghost use Rattle.sil_grammar_tables.specs.inner.Sections.{section};

use crate::build_types;
use sil_ast::Exhausted;
use sil_grammar_tables::Production;
use sil_grammar_tree::Fault;
use sil_grammar_values::prepended::Prepended;
use sil_grammar_values::put::{put_nothing, put_second};
use sil_grammar_values::value::Value;
use std::alloc::Global;

/// Puts what a production of base types stands for in the place of the values of its body.
#[tactic(auto, unfolding(sil_grammar_values::specs::inner::Reduced::reducing, sil_grammar_tables::specs::inner::Sections::telling))]
pub fn reduce_base_type(
    alloc: Global,
    production: Production,
    values: &mut Prepended<Value>,
) -> Result<Option<Fault>, Exhausted>
    requires section { section production ≡ BaseTypes }
    requires parts { length (body production) ≤ length values.old }
    ensures values { OnOk result (values.new ≡ reduced production values.old) }
    ensures fault { IfOk result (λ fault. fault ≡ part_fault production (parts_of production values.old)) }
{
    match production {
        Production::BuiltinBase | Production::OptionalBase => {
            build_types::tailed_base(alloc, values)?
        }
        Production::NamedBase => build_types::named_base(alloc, values)?,
        Production::OptionalOf => return build_types::optional_of(alloc, values),
        Production::Width1 => build_types::int_type(1, values)?,
        Production::Width8 => build_types::int_type(8, values)?,
        Production::Width16 => build_types::int_type(16, values)?,
        Production::Width32 => build_types::int_type(32, values)?,
        Production::Width64 => build_types::int_type(64, values)?,
        Production::BuiltinInt => put_second(values)?,
        Production::BuiltinName | Production::OptionalName => put_nothing(values)?,
        _ => unreachable!(),
    }
    Ok(None)
}
