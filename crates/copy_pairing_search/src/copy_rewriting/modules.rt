//! Modules with a rewritten function.

ghost use Rattle.std.specs.Prelude.{◌≡◌, ◌<◌, length, slice_get, OnOk, IsSomeAnd};
ghost use Rattle.copy_pairing_model.specs.Rewritten.{lent, moved, with_function};

use crate::copy_rewriting::functions::{lend_in, move_in};
use sil_ast::{Exhausted, List, Module, PointId, ValueId};
use std::alloc::Global;
use std::mem;

/// In the function with this number the value, which a `copy_value` makes, becomes a borrow. Where memory runs out, functions are lost.
pub fn lend(alloc: Global, m: &mut Module, function: usize, value: ValueId) -> Result<(), Exhausted>
    requires { function < length m.old.functions }
    ensures { OnOk result (m.new ≡ with_function function (lent value) m.old) }
{
    let mut functions = mem::replace(&mut m.functions, List::new(alloc)).into_vec();
    lend_in(alloc, &mut functions[function], value)?;
    m.functions = List::from_vec(functions);
    Ok(())
}

/// In the function with this number the copy at the point becomes a move, and the instruction with a later index of its block goes.
/// Where memory runs out, functions are lost.
pub fn move_copy(
    alloc: Global,
    m: &mut Module,
    function: usize,
    p: PointId,
    last: usize,
) -> Result<(), Exhausted>
    requires behind { p.index < last }
    requires there { IsSomeAnd (slice_get m.old.functions function) (λ f. IsSomeAnd (slice_get f.blocks p.block.0) (λ block. last < length block.insts)) }
    ensures { OnOk result (m.new ≡ with_function function (moved p last) m.old) }
{
    let mut functions = mem::replace(&mut m.functions, List::new(alloc)).into_vec();
    move_in(alloc, &mut functions[function], p, last)?;
    m.functions = List::from_vec(functions);
    Ok(())
}
