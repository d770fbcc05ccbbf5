//! Values of a body that are passed on as they are.

ghost use Rattle.std.specs.Prelude.{◌≡◌, ◌∷◌, ◌≤◌, length};
ghost use Rattle.sil_grammar_values.specs.declared.value.Value.{Value};

use crate::nothing::skip;
use crate::prepended::Prepended;
use crate::value::Value;

pub fn second_of_two(values: &mut Prepended<Value>) -> Value
    requires { 2 ≤ length values.old }
    ensures { (first : Value) × (values.old ≡ first ∷ result ∷ values.new) }
{
    skip(values);
    values.pop_front()
}

pub fn second_of_three(values: &mut Prepended<Value>) -> Value
    requires { 3 ≤ length values.old }
    ensures { (first third : Value) × (values.old ≡ first ∷ result ∷ third ∷ values.new) }
{
    skip(values);
    let second = values.pop_front();
    skip(values);
    second
}

pub fn third_of_three(values: &mut Prepended<Value>) -> Value
    requires { 3 ≤ length values.old }
    ensures { (first second : Value) × (values.old ≡ first ∷ second ∷ result ∷ values.new) }
{
    skip(values);
    skip(values);
    values.pop_front()
}
