//! What the productions of parameters and results stand for.

ghost use Rattle.std.specs.Prelude.{◌≡◌, ◌≤◌, length, IfOk, OnOk};
ghost use Rattle.sil_grammar_tables.specs.Grammar.{body};
ghost use Rattle.sil_grammar_tables.specs.declared.sections.Section.TheVariants.{Signatures};
ghost use Rattle.sil_grammar_values.specs.inner.PartFaults.{part_fault};
ghost use Rattle.sil_grammar_values.specs.inner.Reduced.{parts_of, reduced};
ghost use Rattle.sil_grammar_tables.specs.inner.Sections.{section};

use crate::build_functions;
use sil_ast::{Exhausted, Passing};
use sil_grammar_tables::Production;
use sil_grammar_tree::Fault;
use sil_grammar_values::nothing::skip;
use sil_grammar_values::prepended::Prepended;
use sil_grammar_values::value::Value;
use std::alloc::Global;

/// Puts what a production of parameters or results stands for in the place of the values of its body.
#[tactic(auto, unfolding(sil_grammar_values::specs::inner::Reduced::reducing, sil_grammar_tables::specs::inner::Sections::telling))]
pub fn reduce_signature(
    alloc: Global,
    production: Production,
    values: &mut Prepended<Value>,
) -> Result<Option<Fault>, Exhausted>
    requires section { section production ≡ Signatures }
    requires parts { length (body production) ≤ length values.old }
    ensures values { OnOk result (values.new ≡ reduced production values.old) }
    ensures fault { IfOk result (λ fault. fault ≡ part_fault production (parts_of production values.old)) }
{
    match production {
        Production::ParamsSome => build_functions::params(alloc, values)?,
        Production::MoreParamsMore => {
            skip(values);
            build_functions::params(alloc, values)?
        },
        Production::ParamsNone | Production::MoreParamsEnd => {
            build_functions::no_more_params(alloc, values)?
        }
        Production::ParamOwned => build_functions::param(alloc, Passing::Owned, values)?,
        Production::ParamGuaranteed => build_functions::param(alloc, Passing::Guaranteed, values)?,
        Production::ParamInout => build_functions::param(alloc, Passing::Inout, values)?,
        Production::ParamIn => build_functions::param(alloc, Passing::In, values)?,
        Production::ParamInGuaranteed => build_functions::param(
            alloc,
            Passing::InGuaranteed,
            values,
        )?,
        Production::ParamPlain => build_functions::plain_param(alloc, values)?,
        Production::ResultList => build_functions::result_list(alloc, values)?,
        Production::ResultOwned => build_functions::worded_result(alloc, true, false, values)?,
        Production::ResultOut => build_functions::worded_result(alloc, false, true, values)?,
        Production::ResultPlain => build_functions::plain_result(alloc, values)?,
        Production::InsideSome => build_functions::givens(alloc, values)?,
        Production::MoreGivensMore => {
            skip(values);
            build_functions::givens(alloc, values)?
        },
        Production::InsideNone | Production::MoreGivensEnd => {
            build_functions::no_more_givens(alloc, values)?
        }
        Production::GivenOwned => build_functions::worded_given(alloc, true, false, values)?,
        Production::GivenOut => build_functions::worded_given(alloc, false, true, values)?,
        Production::GivenPlain => build_functions::plain_given(alloc, values)?,
        _ => unreachable!(),
    }
    Ok(None)
}
