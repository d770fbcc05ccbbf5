//! Puts what a production stands for before the values that wait.

ghost use Rattle.std.specs.Prelude.{◌≡◌, ◌<◌, ◌≤◌, ◌∷◌, List, length, IfOk, OnOk};
ghost use Rattle.sil_grammar_values.specs.declared.value.Value.{Value};
ghost use Rattle.sil_grammar_values.specs.declared.value.Value.TheVariants as v;

use crate::passed_on::{second_of_three, second_of_two};
use crate::prepended::Prepended;
use crate::value::{Reduced, Value};
use sil_ast::Exhausted;
use sil_grammar_tree::Fault;

/// Puts what a production stands for before the others, and answers its fault.
pub fn put(made: Reduced, values: &mut Prepended<Value>) -> Result<Option<Fault>, Exhausted>
    ensures value { OnOk result (values.new ≡ made.value ∷ values.old) }
    ensures fault { IfOk result (λ fault. fault ≡ made.fault) }
{
    values.push_front(made.value)?;
    Ok(made.fault)
}

/// Puts a value in which nothing can be at fault before the others.
pub fn put_value(value: Value, values: &mut Prepended<Value>) -> Result<(), Exhausted>
    ensures value { OnOk result (values.new ≡ value ∷ values.old) }
{
    values.push_front(value)
}

/// Leaves the first value where it stands, for a production that writes nothing but its only part.
pub fn pass(values: &mut Prepended<Value>)
    requires { 0 < length values.old }
    ensures { (first : Value) × (rest : List Value) × (values.old ≡ first ∷ rest) × (values.new ≡ first ∷ rest) }
{}

/// Puts the second of two values in the place of both.
#[inline(never)]
pub fn put_second(values: &mut Prepended<Value>) -> Result<(), Exhausted>
    requires { 2 ≤ length values.old }
    ensures values { OnOk result ((first second : Value) × (rest : List Value) × (values.old ≡ first ∷ second ∷ rest) × (values.new ≡ second ∷ rest)) }
{
    let second = second_of_two(values);
    put_value(second, values)
}

/// Puts the second of three values in the place of them all.
#[inline(never)]
pub fn put_second_of_three(values: &mut Prepended<Value>) -> Result<(), Exhausted>
    requires { 3 ≤ length values.old }
    ensures values { OnOk result ((first second third : Value) × (rest : List Value)
        × (values.old ≡ first ∷ second ∷ third ∷ rest) × (values.new ≡ second ∷ rest)) }
{
    let second = second_of_three(values);
    put_value(second, values)
}

/// Puts that nothing is kept before the others.
#[inline(never)]
pub fn put_nothing(values: &mut Prepended<Value>) -> Result<(), Exhausted>
    ensures values { OnOk result (values.new ≡ v.Nothing ∷ values.old) }
{
    put_value(Value::Nothing, values)
}
