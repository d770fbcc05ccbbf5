//! What the productions of modules and of their items stand for.

ghost use Rattle.std.specs.Prelude.{◌≡◌, ◌≤◌, length, IfOk, OnOk};
ghost use Rattle.sil_grammar_tables.specs.Grammar.{body};
ghost use Rattle.sil_grammar_tables.specs.declared.sections.Section.TheVariants.{Modules};
ghost use Rattle.sil_grammar_values.specs.inner.PartFaults.{part_fault};
ghost use Rattle.sil_grammar_values.specs.inner.Reduced.{parts_of, reduced};
ghost use Rattle.sil_grammar_tables.specs.inner.Sections.{section};

use crate::{build_declarations, build_module};
use sil_ast::{Exhausted, Stage};
use sil_grammar_tables::Production;
use sil_grammar_tree::Fault;
use sil_grammar_values::nothing::skip;
use sil_grammar_values::prepended::Prepended;
use sil_grammar_values::put::{put_nothing, put_second};
use sil_grammar_values::value::Value;
use std::alloc::Global;

/// Puts what a production of modules stands for in the place of the values of its body.
#[tactic(auto, unfolding(sil_grammar_values::specs::inner::Reduced::reducing, sil_grammar_tables::specs::inner::Sections::telling))]
pub fn reduce_module(
    alloc: Global,
    production: Production,
    values: &mut Prepended<Value>,
) -> Result<Option<Fault>, Exhausted>
    requires section { section production ≡ Modules }
    requires parts { length (body production) ≤ length values.old }
    ensures values { OnOk result (values.new ≡ reduced production values.old) }
    ensures fault { IfOk result (λ fault. fault ≡ part_fault production (parts_of production values.old)) }
{
    match production {
        Production::WholeModule => return build_module::whole_module(alloc, values),
        Production::StageNone => build_module::stage(Stage::Canonical, values)?,
        Production::Raw => {
            skip(values);
            build_module::stage(Stage::Raw, values)?
        },
        Production::Canonical => {
            skip(values);
            build_module::stage(Stage::Canonical, values)?
        },
        Production::ImportsMore => build_module::more_imports(values)?,
        Production::ImportsEnd => build_module::no_imports(values)?,
        Production::ItemsMore => build_module::more_items(alloc, values)?,
        Production::ItemsEnd => build_module::no_items(alloc, values)?,
        Production::FinalClass => return build_declarations::final_class(alloc, values),
        Production::PlainClass => return build_declarations::plain_class(alloc, values),
        Production::StructItem => return build_declarations::struct_item(alloc, values),
        Production::SuperclassSome => build_declarations::superclass(values)?,
        Production::EnumItem => return build_declarations::enum_item(alloc, values),
        Production::FunctionItem => return build_module::function(alloc, values),
        Production::VtableItem => build_module::vtable(alloc, values)?,
        Production::EntrySome => build_module::entry(alloc, values)?,
        Production::StageSome => put_second(values)?,
        Production::SuperclassNone | Production::EntryNone => put_nothing(values)?,
        _ => unreachable!(),
    }
    Ok(None)
}
