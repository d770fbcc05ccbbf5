//! What the productions of functions stand for, but their blocks, parameters and results.

ghost use Rattle.std.specs.Prelude.{◌≡◌, ◌≤◌, length, IfOk, OnOk};
ghost use Rattle.sil_grammar_tables.specs.Grammar.{body};
ghost use Rattle.sil_grammar_tables.specs.declared.sections.Section.TheVariants.{Functions};
ghost use Rattle.sil_grammar_values.specs.inner.PartFaults.{part_fault};
ghost use Rattle.sil_grammar_values.specs.inner.Reduced.{parts_of, reduced};
ghost use Rattle.sil_grammar_tables.specs.inner.Sections.{section};

use crate::{build_blocks, build_functions};
use sil_ast::{Convention, Exhausted, Linkage};
use sil_grammar_tables::Production;
use sil_grammar_tree::Fault;
use sil_grammar_values::nothing::skip;
use sil_grammar_values::prepended::Prepended;
use sil_grammar_values::value::Value;
use std::alloc::Global;

/// Puts what a production of functions stands for in the place of the values of its body.
#[tactic(auto, unfolding(sil_grammar_values::specs::inner::Reduced::reducing, sil_grammar_tables::specs::inner::Sections::telling))]
pub fn reduce_function(
    alloc: Global,
    production: Production,
    values: &mut Prepended<Value>,
) -> Result<Option<Fault>, Exhausted>
    requires section { section production ≡ Functions }
    requires parts { length (body production) ≤ length values.old }
    ensures values { OnOk result (values.new ≡ reduced production values.old) }
    ensures fault { IfOk result (λ fault. fault ≡ part_fault production (parts_of production values.old)) }
{
    match production {
        Production::LinkageHidden => {
            skip(values);
            build_functions::linkage(Linkage::Hidden, values)?
        },
        Production::LinkagePrivate => {
            skip(values);
            build_functions::linkage(Linkage::Private, values)?
        },
        Production::LinkageShared => {
            skip(values);
            build_functions::linkage(Linkage::Shared, values)?
        },
        Production::LinkagePublic => {
            skip(values);
            build_functions::linkage(Linkage::Public, values)?
        },
        Production::LinkagePlain => build_functions::linkage(Linkage::Plain, values)?,
        Production::AttributesMore => build_functions::more_attributes(alloc, values)?,
        Production::AttributesEnd => build_functions::no_attributes(alloc, values)?,
        Production::WholeFunctionType => return build_functions::function_type(alloc, values),
        Production::Thin => {
            skip(values);
            build_functions::convention(Convention::Thin, values)?
        },
        Production::Method => {
            skip(values);
            build_functions::convention(Convention::Method, values)?
        },
        Production::BodySome => build_blocks::body(alloc, values)?,
        Production::BodyNone => build_blocks::no_blocks(alloc, values)?,
        _ => unreachable!(),
    }
    Ok(None)
}
