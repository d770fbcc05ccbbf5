//! Functions and their blocks.

ghost use Rattle.std.specs.Prelude.{◌≡◌, slice_get};
ghost use Rattle.std.specs.Option.{option_copied};
ghost use Rattle.sil_ast.specs.Blocks.{args_of};

use crate::boxed::Boxed;
use crate::exhausted::Exhausted;
use crate::inst::Inst;
use crate::list::List;
use crate::place::ValueId;
use crate::signature::Signature;
use crate::text::Text;
use crate::try_clone::{TryClone, copy_four};
use crate::type_name::TypeName;
use std::alloc::Global;

/// A function: `sil hidden [ossa] @main : $@convention(thin) () -> () { bb0: .. }`. One that is external has no blocks.
#[derive(Drop)]
pub struct Function {
    pub name: Text,
    pub form: Form,
    pub linkage: Linkage,
    /// The words in brackets, `ossa` left out.
    pub attributes: List<Text>,
    pub signature: Signature,
    pub blocks: List<Block>,
}

/// The form of a function: with `[ossa]`, with a body and no `[ossa]`, or with no body.
#[derive(Clone, Copy, Debug, PartialEq, Eq)]
pub enum Form {
    Ossa,
    Lowered,
    External,
}

/// The word before a function's name: none, `hidden`, `private`, `shared` or `public`.
#[derive(Clone, Copy, Debug, PartialEq, Eq)]
pub enum Linkage {
    Plain,
    Hidden,
    Private,
    Shared,
    Public,
}

/// A block: `bb1(%2 : @owned $Node):`, its instructions, and the terminator with which it ends.
#[derive(Drop)]
pub struct Block {
    pub args: List<BlockArg>,
    /// Each in a box: they are large, and a list of them would want its memory in one piece.
    pub insts: List<Boxed<Inst>>,
    pub terminator: Inst,
}

/// An argument of a block: `%2 : @owned $Node`.
#[derive(Drop)]
pub struct BlockArg {
    pub value: ValueId,
    pub kind: ArgKind,
    pub ty: TypeName,
}

/// How a block's argument is annotated: not, `@owned` or `@guaranteed`.
#[derive(Clone, Copy, Debug, PartialEq, Eq)]
pub enum ArgKind {
    Plain,
    Owned,
    Guaranteed,
}

impl Function {
    /// The arguments of the block with this number, and none where the function doesn't have it.
    pub fn args_of(&self, block: usize) -> &[BlockArg]
        ensures { result.now ≡ args_of self.now block }
    {
        match self.blocks.get(block) {
            Some(block) => block.args.as_slice(),
            None => &[],
        }
    }
}

impl Block {
    /// The instruction at `i`, counted from 0; none where the terminator stands, and behind it.
    pub fn inst(&self, i: usize) -> Option<&Inst>
        ensures { option_copied result ≡ slice_get self.now.insts i }
    {
        match self.insts.get(i) {
            None => None,
            Some(inst) => Some(inst.get()),
        }
    }
}

impl TryClone for Function {
    fn try_clone(&self, alloc: Global) -> Result<Function, Exhausted> {
        let (name, attributes, signature, blocks) = copy_four(
            &self.name,
            &self.attributes,
            &self.signature,
            &self.blocks,
            alloc,
        )?;
        Ok(Function {
            name,
            form: self.form,
            linkage: self.linkage,
            attributes,
            signature,
            blocks,
        })
    }
}

impl TryClone for Block {
    fn try_clone(&self, alloc: Global) -> Result<Block, Exhausted> {
        Ok(Block {
            args: self.args.try_clone(alloc)?,
            insts: self.insts.try_clone(alloc)?,
            terminator: self.terminator.try_clone(alloc)?,
        })
    }
}

impl TryClone for BlockArg {
    fn try_clone(&self, alloc: Global) -> Result<BlockArg, Exhausted> {
        Ok(BlockArg {
            value: self.value,
            kind: self.kind,
            ty: self.ty.try_clone(alloc)?,
        })
    }
}
