//! Functions, classes and modules, made ready to run.

use crate::ready_code::block::ReadyBlock;
use crate::ready_code::local::Local;
use sil_ast::{FuncId, List, Storage};

/// A function: how many values it has, how many leaves and addresses these have together, its blocks, none where it has no body, and where
/// its first argument stands, if that is a value. A deinitialiser takes its object there.
#[derive(Drop)]
pub struct ReadyFunction {
    pub values: u32,
    pub leaves: u32,
    pub addresses: u32,
    pub first_argument: Option<Local>,
    pub blocks: List<ReadyBlock>,
}

/// A class: the deinitialisers of it and of its ancestors, the most derived first, and how each of its fields is stored, the root's first.
/// A declaration that is no class has neither.
#[derive(Drop)]
pub struct ReadyClass {
    pub deinits: List<FuncId>,
    pub fields: List<Storage>,
}

/// The functions of a module, and its classes by their places among the declarations.
#[derive(Drop)]
pub struct ReadyModule {
    pub functions: List<ReadyFunction>,
    pub classes: List<ReadyClass>,
}
