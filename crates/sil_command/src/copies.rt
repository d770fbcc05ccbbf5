//! How many copies a module has.

ghost use Rattle.std.specs.Prelude.{◌≡◌, ◌<◌, ◌^◌};
ghost use Rattle.module_runner.specs.copy_pairing_model.Counts as counts;

use instruction_table::Op;
use sil_ast::{Block, Function, Inst, Module};

fn is_copy(inst: &Inst) -> bool
    ensures { result ≡ counts.copies inst.now }
{
    inst.op as usize == Op::CopyValue as usize
}

fn copies_in_block(block: &Block) -> u64
    ensures { result ≡ counts.copies_of_block block.now }
{
    let insts = block.insts.as_slice();
    let mut count = 0;
    for inst in insts {
        if is_copy(inst.get()) {
            count += 1;
        }
    }
    count
}

fn copies_in_function(function: &Function) -> u64
    requires { counts.copies_of_function function.now < 2 ^ 64 }
    ensures { result ≡ counts.copies_of_function function.now }
{
    let blocks = function.blocks.as_slice();
    let mut count = 0;
    for block in blocks {
        count += copies_in_block(block);
    }
    count
}

/// How many `copy_value` the module has. One in numbered form has few.
pub(crate) fn copies_in(module: &Module) -> u64
    requires { counts.copies_of «module».now < 2 ^ 64 }
    ensures { result ≡ counts.copies_of «module».now }
{
    let functions = module.functions.as_slice();
    let mut count = 0;
    for function in functions {
        count += copies_in_function(function);
    }
    count
}
