//! The type behind a `*`, or behind none.

ghost use Rattle.std.specs.Prelude.{◌≡◌, IfOk};
ghost use Rattle.sil_grammar_values.specs.Values.{starred};

use crate::nothing::discard;
use crate::value::Value;
use sil_ast::{Boxed, Exhausted, TypeName};
use std::alloc::Global;

/// The type of an address behind a `*`, and else the type itself.
#[tactic(auto, unfolding(crate::specs::Values::starred))]
pub fn starred(alloc: Global, star: Value, ty: TypeName) -> Result<TypeName, Exhausted>
    ensures { IfOk result (λ made. made ≡ starred star ty) }
{
    match star {
        Value::Star => Ok(TypeName::Address(Boxed::new(alloc, ty)?)),
        other => {
            discard(other);
            Ok(ty)
        }
    }
}
