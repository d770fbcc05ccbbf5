//! Functions and blocks as a text writes them.

use crate::written_tree::inst_box::InstBox;
use crate::written_tree::written_declarations::WrittenToken;
use crate::written_tree::written_instructions::WrittenInst;
use sil_ast::{ArgKind, Linkage, List, Signature, TypeName};

/// `sil hidden [ossa] @f : $@convention(thin) () -> () { .. }`
#[derive(Drop)]
pub struct WrittenFunction {
    pub name: WrittenToken,
    pub linkage: Linkage,
    /// The words in brackets, `ossa` among them.
    pub attributes: List<WrittenToken>,
    pub signature: Signature,
    /// None where the function has no body.
    pub blocks: List<WrittenBlock>,
}

/// `bb1(%2 : @owned $T): ..`
#[derive(Drop)]
pub struct WrittenBlock {
    pub label: WrittenToken,
    pub args: List<WrittenArg>,
    pub insts: List<InstBox>,
    pub terminator: WrittenInst,
}

/// `%2 : @owned $T`
#[derive(Drop)]
pub struct WrittenArg {
    pub name: WrittenToken,
    pub kind: ArgKind,
    pub ty: TypeName,
}
