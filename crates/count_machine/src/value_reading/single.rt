//! Values of one leaf, and cases without a payload.

ghost use Rattle.std.specs.Prelude.{◌≡◌, ℕ, IfOk, pos};
ghost use Rattle.holder_model_values.specs.RunValues.Shapes.{Integer, Reference, Shape, Stored};
ghost use Rattle.numbered_form.specs.Names.{Name};
ghost use Rattle.sil_ast.specs.declared.decl.Storage.TheVariants as storage;
ghost use Rattle.count_machine.specs.ValueReading.inner.Reading.{IsValueOf};

use holder_model_values::{Leaf, Val};
use sil_ast::{Boxed, Exhausted};
use std::alloc::Global;

/// What is read where the leaves are those of no value.
pub(crate) fn no_value() -> Val
    ensures { result ≡ Val.Int (pos 0) }
{
    Val::Int(0)
}

/// The integer with these leaves.
pub(crate) fn integer_at(leaves: &[Leaf]) -> Val
    ensures { (width : ℕ) → IsValueOf (Integer width) leaves.now result }
{
    match leaves.first() {
        Some(Leaf::Int(number)) => Val::Int(*number),
        _ => no_value(),
    }
}

/// The reference with these leaves.
pub(crate) fn object_at(leaves: &[Leaf]) -> Val
    ensures reference { (class : Name) → IsValueOf (Reference class) leaves.now result }
    ensures unowned { (s : Shape) → IsValueOf (Stored storage.Unowned s) leaves.now result }
{
    match leaves.first() {
        Some(Leaf::Object(object)) => Val::Object(*object),
        _ => no_value(),
    }
}

/// What weak storage with these leaves gives.
pub(crate) fn weak_at(alloc: Global, leaves: &[Leaf]) -> Result<Val, Exhausted>
    ensures { (s : Shape) → IfOk result (IsValueOf (Stored storage.Weak s) leaves.now) }
{
    match leaves.first() {
        Some(Leaf::Object(object)) => Ok(Val::Chosen {
            case_index: 1,
            payload: Some(Boxed::new(alloc, Val::Object(*object))?),
        }),
        Some(Leaf::Blank) => Ok(Val::Chosen {
            case_index: 0,
            payload: None,
        }),
        _ => Ok(no_value()),
    }
}
