//! The texts of functions and their blocks.

ghost use Rattle.std.specs.Prelude.{◌≡◌, ◌++◌, OnOk, codes};
ghost use Rattle.sil_printer.specs.Words.{line, indented, each_behind, line_feed};
ghost use Rattle.sil_printer.specs.CanonicalInsts.{inst_text};
ghost use Rattle.sil_printer.specs.CanonicalFunctions.{kind_text, arg_text, block_text, blocks_text, linkage_text, form_text};
ghost use Rattle.sil_printer.specs.CanonicalFunctions.{attribute_text, words_text, head_text, body_text, function_text};

use crate::edges::push_block_name;
use crate::insts::push_inst;
use crate::pieces::{Canonical, push_bytes, push_each, push_parens_if_any, push_separator};
use crate::types::push_type;
use sil_ast::{ArgKind, Block, BlockArg, Boxed, Exhausted, Form, Function, Inst, Linkage, Text};

/// Puts the functions of a module, each after an empty line.
pub(crate) fn push_functions(out: &mut Vec<u8>, functions: &[Function]) -> Result<(), Exhausted>
    ensures { OnOk result (out.new.items ≡ out.old.items ++ each_behind line_feed (function_text functions.now) functions.now) }
{
    for function in functions {
        push_bytes(out, b"\n")?;
        push_head(out, function)?;
        push_body(out, functions, function.blocks.as_slice())?;
    }
    Ok(())
}

fn push_head(out: &mut Vec<u8>, function: &Function) -> Result<(), Exhausted>
    ensures { OnOk result (out.new.items ≡ out.old.items ++ head_text function.now) }
{
    push_words(out, function)?;
    push_bytes(out, b" @")?;
    push_bytes(out, function.name.as_slice())?;
    push_bytes(out, b" : $")?;
    function.signature.push_to(out)
}

/// Puts the words before a function's name.
fn push_words(out: &mut Vec<u8>, function: &Function) -> Result<(), Exhausted>
    ensures { OnOk result (out.new.items ≡ out.old.items ++ words_text function.now) }
{
    push_bytes(out, b"sil")?;
    push_bytes(out, linkage_word(function.linkage))?;
    push_each(out, b" [", function.attributes.as_slice())?;
    push_bytes(out, form_word(function.form))
}

impl Canonical for Text {
    ghost text = { attribute_text };

    fn push_to(&self, out: &mut Vec<u8>) -> Result<(), Exhausted> {
        push_bytes(out, self.as_slice())?;
        push_bytes(out, b"]")
    }
}

fn linkage_word(linkage: Linkage) -> &'static [u8]
    ensures { result.now ≡ linkage_text linkage }
{
    match linkage {
        Linkage::Plain => b"",
        Linkage::Hidden => b" hidden",
        Linkage::Private => b" private",
        Linkage::Shared => b" shared",
        Linkage::Public => b" public",
    }
}

fn form_word(form: Form) -> &'static [u8]
    ensures { result.now ≡ form_text form }
{
    match form {
        Form::Ossa => b" [ossa]",
        Form::Lowered => b"",
        Form::External => b"",
    }
}

fn push_body(out: &mut Vec<u8>, functions: &[Function], blocks: &[Block]) -> Result<(), Exhausted>
    ensures { OnOk result (out.new.items ≡ out.old.items ++ body_text functions.now blocks.now) }
{
    if blocks.is_empty() {
        return push_bytes(out, b"\n");
    }
    push_bytes(out, b" {\n")?;
    push_blocks(out, functions, blocks)?;
    push_bytes(out, b"}\n")
}

fn push_blocks(out: &mut Vec<u8>, functions: &[Function], blocks: &[Block]) -> Result<(), Exhausted>
    ensures { OnOk result (out.new.items ≡ out.old.items ++ blocks_text functions.now blocks.now) }
{
    for (k, block) in blocks.iter().enumerate() {
        push_separator(out, b"\n", k)?;
        push_block(out, functions, k, block)?;
    }
    Ok(())
}

fn push_block(
    out: &mut Vec<u8>,
    functions: &[Function],
    k: usize,
    block: &Block,
) -> Result<(), Exhausted>
    ensures { OnOk result (out.new.items ≡ out.old.items ++ block_text functions.now k block.now) }
{
    push_block_name(out, k as u64)?;
    push_parens_if_any(out, block.args.as_slice())?;
    push_bytes(out, b":\n")?;
    push_insts(out, functions, block.insts.as_slice())?;
    push_line(out, functions, &block.terminator)
}

impl Canonical for BlockArg {
    ghost text = { arg_text };

    fn push_to(&self, out: &mut Vec<u8>) -> Result<(), Exhausted> {
        self.value.push_to(out)?;
        push_bytes(out, b" : ")?;
        push_bytes(out, kind_word(self.kind))?;
        push_bytes(out, b"$")?;
        push_type(out, &self.ty)
    }
}

fn kind_word(kind: ArgKind) -> &'static [u8]
    ensures { result.now ≡ kind_text kind }
{
    match kind {
        ArgKind::Plain => b"",
        ArgKind::Owned => b"@owned ",
        ArgKind::Guaranteed => b"@guaranteed ",
    }
}

fn push_insts(
    out: &mut Vec<u8>,
    functions: &[Function],
    insts: &[Boxed<Inst>],
) -> Result<(), Exhausted>
    ensures { OnOk result (out.new.items ≡ out.old.items ++ indented (inst_text functions.now) insts.now) }
{
    for inst in insts {
        push_line(out, functions, inst.get())?;
    }
    Ok(())
}

fn push_line(out: &mut Vec<u8>, functions: &[Function], inst: &Inst) -> Result<(), Exhausted>
    ensures { OnOk result (out.new.items ≡ out.old.items ++ (codes "  " ++ line (inst_text functions.now inst.now))) }
{
    push_bytes(out, b"  ")?;
    push_inst(out, functions, inst)?;
    push_bytes(out, b"\n")
}
