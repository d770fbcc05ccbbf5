//! Builds the signatures of functions, and puts them before the values that wait.

ghost use Rattle.std.specs.Prelude.{◌≡◌, [], ◌∷◌, ◌≤◌, List, length, IfOk, OnOk};
ghost use Rattle.sil_grammar_tables.specs.declared.grammar.Production.{Production};
ghost use Rattle.sil_grammar_values.specs.declared.value.Value.{Value};
ghost use Rattle.sil_grammar_values.specs.declared.value.Value.TheVariants as v;
ghost use Rattle.sil_grammar_values.specs.inner.Meaning.{given_with, param};
ghost use Rattle.sil_grammar_values.specs.inner.PartFaults.{part_fault};
ghost use Rattle.sil_grammar_values.specs.inner.Parts.{place_at};
ghost use Rattle.sil_grammar_values.specs.inner.Reduced.{parts_of, reduced};
ghost use Rattle.sil_grammar_values.specs.Values.{given_before, givens_of, no_givens, no_params, param_before, params_of};

use sil_ast::{Convention, Exhausted, Given, Linkage, Param, Passing, Place, Signature};
use sil_grammar_tables::Production;
use sil_grammar_tree::{Fault, earlier};
use sil_grammar_values::faults::too_many_arguments;
use sil_grammar_values::nothing::{discard, no_givens, no_params, skip};
use sil_grammar_values::prepended::Prepended;
use sil_grammar_values::put::{put, put_value};
use sil_grammar_values::value::{Reduced, Value};
use sil_grammar_values::written_types::{GivenList, ParamList, WrittenType};
use std::alloc::Global;

/// Puts how far a function is seen.
#[inline(never)]
pub(crate) fn linkage(linkage: Linkage, values: &mut Prepended<Value>) -> Result<(), Exhausted>
    ensures values { OnOk result (values.new ≡ v.Linkage linkage ∷ values.old) }
{
    put_value(Value::Linkage(linkage), values)
}

/// Puts a word in brackets, and the words behind it.
#[inline(never)]
#[tactic(auto, unfolding(sil_grammar_values::specs::inner::Reduced::standing))]
pub(crate) fn more_attributes(alloc: Global, values: &mut Prepended<Value>) -> Result<(), Exhausted>
    requires { 4 ≤ length values.old }
    ensures values { OnOk result (values.new ≡ reduced Production.AttributesMore values.old) }
{
    skip(values);
    let word = values.pop_front().into_token();
    skip(values);
    let mut others = values.pop_front().into_tokens(alloc);
    others.push_front(word)?;
    put_value(Value::Tokens(others), values)
}

/// Puts that there are no words in brackets, or no more of them.
#[inline(never)]
pub(crate) fn no_attributes(alloc: Global, values: &mut Prepended<Value>) -> Result<(), Exhausted>
    ensures values { OnOk result (values.new ≡ v.Tokens [] ∷ values.old) }
{
    put_value(Value::Tokens(Prepended::new(alloc)), values)
}

/// Puts how a function is called.
#[inline(never)]
pub(crate) fn convention(
    convention: Convention,
    values: &mut Prepended<Value>,
) -> Result<(), Exhausted>
    ensures values { OnOk result (values.new ≡ v.Convention convention ∷ values.old) }
{
    put_value(Value::Convention(convention), values)
}

/// Puts a signature of its convention, its parameters and its results.
#[inline(never)]
#[tactic(auto, unfolding(sil_grammar_values::specs::inner::Reduced::reducing))]
pub(crate) fn function_type(
    alloc: Global,
    values: &mut Prepended<Value>,
) -> Result<Option<Fault>, Exhausted>
    requires { 9 ≤ length values.old }
    ensures values { OnOk result (values.new ≡ reduced Production.WholeFunctionType values.old) }
    ensures fault { IfOk result (λ fault. fault ≡ part_fault Production.WholeFunctionType (parts_of Production.WholeFunctionType values.old)) }
{
    skip(values);
    skip(values);
    let convention = values.pop_front().into_convention();
    skip(values);
    skip(values);
    let params = values.pop_front().into_params(alloc);
    skip(values);
    skip(values);
    let results = values.pop_front().into_givens(alloc);
    let fault = earlier(
        too_many_arguments(&params.firsts),
        too_many_arguments(&results.firsts),
    );
    let value = Value::Signature(Signature {
        convention,
        params: params.params.into_list(),
        results: results.givens.into_list(),
    });
    put(Reduced { value, fault }, values)
}

/// A parameter with its place in front of the others.
#[tactic(auto, unfolding(sil_grammar_values::specs::Values::param_before))]
fn param_before(value: Value, others: ParamList) -> Result<ParamList, Exhausted>
    ensures { IfOk result (λ list. list ≡ param_before value others) }
{
    match value {
        Value::Param(param, first) => {
            let ParamList {
                mut params,
                mut firsts,
            } = others;
            params.push_front(param)?;
            firsts.push_front(first)?;
            Ok(ParamList { params, firsts })
        }
        other => {
            discard(other);
            Ok(others)
        }
    }
}

/// A result with its place in front of the others.
#[tactic(auto, unfolding(sil_grammar_values::specs::Values::given_before))]
fn given_before(value: Value, others: GivenList) -> Result<GivenList, Exhausted>
    ensures { IfOk result (λ list. list ≡ given_before value others) }
{
    match value {
        Value::Given(given, first) => {
            let GivenList {
                mut givens,
                mut firsts,
            } = others;
            givens.push_front(given)?;
            firsts.push_front(first)?;
            Ok(GivenList { givens, firsts })
        }
        other => {
            discard(other);
            Ok(others)
        }
    }
}

/// Puts a parameter, and the parameters behind it.
#[inline(never)]
pub(crate) fn params(alloc: Global, values: &mut Prepended<Value>) -> Result<(), Exhausted>
    requires { 2 ≤ length values.old }
    ensures values { OnOk result ((first others : Value) × (rest : List Value) × (values.old ≡ first ∷ others ∷ rest)
        × (values.new ≡ v.Params (param_before first (params_of others)) ∷ rest)) }
{
    let first = values.pop_front();
    let others = values.pop_front().into_params(alloc);
    let params = param_before(first, others)?;
    put_value(Value::Params(params), values)
}

/// Puts that there are no parameters, or no more of them.
#[inline(never)]
pub(crate) fn no_more_params(alloc: Global, values: &mut Prepended<Value>) -> Result<(), Exhausted>
    ensures values { OnOk result (values.new ≡ v.Params no_params ∷ values.old) }
{
    put_value(Value::Params(no_params(alloc)), values)
}

/// Puts a result, and the results behind it.
#[inline(never)]
pub(crate) fn givens(alloc: Global, values: &mut Prepended<Value>) -> Result<(), Exhausted>
    requires { 2 ≤ length values.old }
    ensures values { OnOk result ((first others : Value) × (rest : List Value) × (values.old ≡ first ∷ others ∷ rest)
        × (values.new ≡ v.Givens (given_before first (givens_of others)) ∷ rest)) }
{
    let first = values.pop_front();
    let others = values.pop_front().into_givens(alloc);
    let givens = given_before(first, others)?;
    put_value(Value::Givens(givens), values)
}

/// Puts that there are no results, or no more of them.
#[inline(never)]
pub(crate) fn no_more_givens(alloc: Global, values: &mut Prepended<Value>) -> Result<(), Exhausted>
    ensures values { OnOk result (values.new ≡ v.Givens no_givens ∷ values.old) }
{
    put_value(Value::Givens(no_givens(alloc)), values)
}

/// Puts a parameter behind the word that says how it is passed.
#[inline(never)]
pub(crate) fn param(
    alloc: Global,
    passing: Passing,
    values: &mut Prepended<Value>,
) -> Result<(), Exhausted>
    requires { 2 ≤ length values.old }
    ensures values { OnOk result ((word ty : Value) × (rest : List Value)
        × (values.old ≡ word ∷ ty ∷ rest) × (values.new ≡ param passing (word ∷ ty ∷ []) ∷ rest)) }
{
    let first = values.pop_front().into_token().place;
    let ty = values.pop_front().into_type().ty;
    put_value(Value::Param(Param { passing, ty }, first), values)
}

/// Puts a parameter of which no word says how it is passed.
#[inline(never)]
#[tactic(auto, unfolding(sil_grammar_values::specs::inner::Reduced::standing))]
pub(crate) fn plain_param(alloc: Global, values: &mut Prepended<Value>) -> Result<(), Exhausted>
    requires { 1 ≤ length values.old }
    ensures values { OnOk result (values.new ≡ reduced Production.ParamPlain values.old) }
{
    let WrittenType { ty, first, .. } = values.pop_front().into_type();
    let passing = Passing::Plain;
    put_value(Value::Param(Param { passing, ty }, first), values)
}

/// A list of one result.
fn one_given(alloc: Global, given: Given, first: Place) -> Result<GivenList, Exhausted>
    ensures { IfOk result (λ list. list ≡ record { givens = given ∷ []; firsts = first ∷ [] }) }
{
    let mut givens = Prepended::new(alloc);
    let mut firsts = Prepended::new(alloc);
    givens.push_front(given)?;
    firsts.push_front(first)?;
    Ok(GivenList { givens, firsts })
}

/// Puts the results between two parentheses.
#[inline(never)]
#[tactic(auto, unfolding(sil_grammar_values::specs::inner::Reduced::standing))]
pub(crate) fn result_list(alloc: Global, values: &mut Prepended<Value>) -> Result<(), Exhausted>
    requires { 3 ≤ length values.old }
    ensures values { OnOk result (values.new ≡ reduced Production.ResultList values.old) }
{
    skip(values);
    let givens = values.pop_front().into_givens(alloc);
    skip(values);
    put_value(Value::Givens(givens), values)
}

/// Puts a result behind the word that says how it is given, alone in a list.
#[inline(never)]
pub(crate) fn worded_result(
    alloc: Global,
    owned: bool,
    out: bool,
    values: &mut Prepended<Value>,
) -> Result<(), Exhausted>
    requires { 2 ≤ length values.old }
    ensures values { OnOk result ((word ty : Value) × (rest : List Value) × (values.old ≡ word ∷ ty ∷ rest)
        × (values.new ≡ v.Givens (record { givens = given_with owned out 1 (word ∷ ty ∷ []) ∷ []; firsts = place_at 0 (word ∷ ty ∷ []) ∷ [] }) ∷ rest)) }
{
    let first = values.pop_front().into_token().place;
    let ty = values.pop_front().into_type().ty;
    let givens = one_given(alloc, Given { owned, out, ty }, first)?;
    put_value(Value::Givens(givens), values)
}

/// Puts a result of which no word says how it is given, alone in a list.
#[inline(never)]
#[tactic(auto, unfolding(sil_grammar_values::specs::inner::Reduced::standing))]
pub(crate) fn plain_result(alloc: Global, values: &mut Prepended<Value>) -> Result<(), Exhausted>
    requires { 1 ≤ length values.old }
    ensures values { OnOk result (values.new ≡ reduced Production.ResultPlain values.old) }
{
    let WrittenType { ty, first, .. } = values.pop_front().into_type();
    let givens = one_given(
        alloc,
        Given {
            owned: false,
            out: false,
            ty,
        },
        first,
    )?;
    put_value(Value::Givens(givens), values)
}

/// Puts a result of several behind the word that says how it is given.
#[inline(never)]
pub(crate) fn worded_given(
    alloc: Global,
    owned: bool,
    out: bool,
    values: &mut Prepended<Value>,
) -> Result<(), Exhausted>
    requires { 2 ≤ length values.old }
    ensures values { OnOk result ((word ty : Value) × (rest : List Value) × (values.old ≡ word ∷ ty ∷ rest)
        × (values.new ≡ v.Given (given_with owned out 1 (word ∷ ty ∷ [])) (place_at 0 (word ∷ ty ∷ [])) ∷ rest)) }
{
    let first = values.pop_front().into_token().place;
    let ty = values.pop_front().into_type().ty;
    put_value(Value::Given(Given { owned, out, ty }, first), values)
}

/// Puts a result of several of which no word says how it is given.
#[inline(never)]
#[tactic(auto, unfolding(sil_grammar_values::specs::inner::Reduced::standing))]
pub(crate) fn plain_given(alloc: Global, values: &mut Prepended<Value>) -> Result<(), Exhausted>
    requires { 1 ≤ length values.old }
    ensures values { OnOk result (values.new ≡ reduced Production.GivenPlain values.old) }
{
    let WrittenType { ty, first, .. } = values.pop_front().into_type();
    put_value(
        Value::Given(
            Given {
                owned: false,
                out: false,
                ty,
            },
            first,
        ),
        values,
    )
}
