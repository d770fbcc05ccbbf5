//! The whole text.

ghost use Rattle.std.specs.Prelude.{◌≡◌, ◌≤◌, ◌<◌, ◌++◌, ℕ, List, [], ◌∷◌, IfOk, OnOk};
ghost use Rattle.std.specs.List.{flat_map, range_with_len};
ghost use Rattle.sil_ast.specs.declared.function.Function.{Function};
ghost use Rattle.sil_printer.specs.CanonicalFunctions.{function_text};
ghost use Rattle.sil_printer.specs.CanonicalInsts.{inst_text};
ghost use Rattle.sil_printer.specs.Words.{indented, line_feed};
ghost use Rattle.sil_command_generator.specs.inner.Heads.{head_text};
ghost use Rattle.sil_command_generator.specs.GeneratedModules.{call_of, functions_of, generated, main};
ghost use Rattle.sil_command_generator.specs.WorkFunctions.{empty_tuple, return_of};

use crate::pieces::{push_bytes, push_number};
use crate::work::push_all_work;
use sil_ast::{Exhausted, Text};
use std::alloc::Global;

/// The text of the generated module with `n` functions besides `@main`, from 1 to 500. It is canonical.
pub fn generated_text(alloc: Global, n: u32) -> Result<Text, Exhausted>
    requires { (1 ≤ n) × (n ≤ 500) }
    ensures { IfOk result (λ text. text ≡ generated n) }
{
    let mut out = Vec::new(alloc);
    push_bytes(&mut out, head())?;
    push_all_work(&mut out, n)?;
    push_main(&mut out, n)?;
    Text::from_vec(alloc, out)
}

/// All that stands before the functions.
#[tactic(none)]
fn head() -> &'static [u8]
    ensures { result.now ≡ head_text }
{
    b"sil_stage canonical

import Builtin
import Swift

class Node {
  var value: Builtin.Int64
  var next: Optional<Node>
}
"
}

/// Puts `@main`, behind an empty line.
fn push_main(out: &mut Vec<u8>, n: u32) -> Result<(), Exhausted>
    requires { n ≤ 500 }
    ensures { OnOk result (out.new.items ≡ out.old.items ++ (line_feed ++ function_text (functions_of n) (main n))) }
{
    push_bytes(
        out,
        b"\nsil [ossa] @main : $@convention(thin) () -> () {\nbb0:\n",
    )?;
    push_calls(out, n)?;
    push_end(out, 2 * n)?;
    push_bytes(out, b"}\n")?;
    Ok(())
}

/// Puts the calls of the first `n` functions.
fn push_calls(out: &mut Vec<u8>, n: u32) -> Result<(), Exhausted>
    requires { n ≤ 500 }
    ensures { OnOk result (out.new.items ≡ out.old.items ++ indented (inst_text (functions_of n)) (flat_map call_of (range_with_len 0 n))) }
{
    for k in 0..n {
        push_call(out, k)?;
    }
    Ok(())
}

/// Puts the call of the function with this number.
fn push_call(out: &mut Vec<u8>, k: u32) -> Result<(), Exhausted>
    requires { k < 500 }
    ensures { (n : ℕ) → k < n → OnOk result (out.new.items ≡ out.old.items ++ indented (inst_text (functions_of n)) (call_of k)) }
{
    push_bytes(out, b"  %")?;
    push_number(out, 2 * k)?;
    push_bytes(out, b" = function_ref @work")?;
    push_number(out, k)?;
    push_bytes(out, b" : $@convention(thin) () -> ()\n  %")?;
    push_number(out, 2 * k + 1)?;
    push_bytes(out, b" = apply %")?;
    push_number(out, 2 * k)?;
    push_bytes(out, b"() : $@convention(thin) () -> ()\n")?;
    Ok(())
}

/// Puts the last two lines of `@main`: the tuple with this number, and its return.
fn push_end(out: &mut Vec<u8>, number: u32) -> Result<(), Exhausted>
    ensures { (functions : List Function) → OnOk result (out.new.items
        ≡ out.old.items ++ (indented (inst_text functions) (empty_tuple number ∷ []) ++ indented (inst_text functions) (return_of number ∷ []))) }
{
    push_bytes(out, b"  %")?;
    push_number(out, number)?;
    push_bytes(out, b" = tuple ()\n  return %")?;
    push_number(out, number)?;
    push_bytes(out, b" : $()\n")?;
    Ok(())
}
