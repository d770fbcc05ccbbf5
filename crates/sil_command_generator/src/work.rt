//! The text of the functions that do the work, which differ in their names alone.

ghost use Rattle.std.specs.Prelude.{◌≡◌, ◌++◌, List, OnOk, map};
ghost use Rattle.std.specs.List.{range_with_len};
ghost use Rattle.sil_ast.specs.declared.function.Function.{Function};
ghost use Rattle.sil_printer.specs.CanonicalFunctions.{blocks_text, function_text};
ghost use Rattle.sil_printer.specs.Words.{each_behind, line_feed};
ghost use Rattle.sil_command_generator.specs.WorkFunctions.{work, work_blocks};

use crate::pieces::{push_bytes, push_number};
use sil_ast::Exhausted;

#[tactic(none)]
fn blocks() -> &'static [u8]
    ensures { (functions : List Function) → result.now ≡ blocks_text functions work_blocks }
{
    b"bb0:
  %0 = integer_literal $Builtin.Int64, 0
  %1 = enum $Optional<Node>, #Optional.none!enumelt
  br bb1(%0 : $Builtin.Int64, %1 : $Optional<Node>)

bb1(%2 : $Builtin.Int64, %3 : @owned $Optional<Node>):
  %4 = alloc_ref $Node
  %5 = begin_borrow %4 : $Node
  %6 = ref_element_addr %5 : $Node, #Node.value
  store %2 to [trivial] %6 : $*Builtin.Int64
  %7 = ref_element_addr %5 : $Node, #Node.next
  store %3 to [init] %7 : $*Optional<Node>
  end_borrow %5 : $Node
  %8 = copy_value %4 : $Node
  debug_value %8 : $Node
  destroy_value %8 : $Node
  %9 = enum $Optional<Node>, #Optional.some!enumelt, %4 : $Node
  %10 = integer_literal $Builtin.Int64, 1
  %11 = integer_literal $Builtin.Int1, 0
  %12 = builtin \"sadd_with_overflow_Int64\"(%2 : $Builtin.Int64, %10 : $Builtin.Int64, %11 : $Builtin.Int1) : $(Builtin.Int64, Builtin.Int1)
  %13 = tuple_extract %12 : $(Builtin.Int64, Builtin.Int1), 0
  %14 = integer_literal $Builtin.Int64, 10
  %15 = builtin \"cmp_slt_Int64\"(%13 : $Builtin.Int64, %14 : $Builtin.Int64) : $Builtin.Int1
  cond_br %15, bb2, bb3

bb2:
  br bb1(%13 : $Builtin.Int64, %9 : $Optional<Node>)

bb3:
  destroy_value %9 : $Optional<Node>
  %16 = tuple ()
  return %16 : $()
"
}

/// Puts the function with this number, behind an empty line.
fn push_work(out: &mut Vec<u8>, k: u32) -> Result<(), Exhausted>
    ensures { (functions : List Function) → OnOk result (out.new.items ≡ out.old.items ++ (line_feed ++ function_text functions (work k))) }
{
    push_bytes(out, b"\nsil [ossa] @work")?;
    push_number(out, k)?;
    push_bytes(out, b" : $@convention(thin) () -> () {\n")?;
    push_bytes(out, blocks())?;
    push_bytes(out, b"}\n")?;
    Ok(())
}

/// Puts the first `n` of them.
pub(crate) fn push_all_work(out: &mut Vec<u8>, n: u32) -> Result<(), Exhausted>
    ensures { (functions : List Function) → OnOk result (out.new.items
        ≡ out.old.items ++ each_behind line_feed (function_text functions) (map work (range_with_len 0 n))) }
{
    for k in 0..n {
        push_work(out, k)?;
    }
    Ok(())
}
