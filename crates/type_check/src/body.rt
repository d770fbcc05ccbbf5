//! A function with a body, and all that its points are judged by.

use crate::function_facts::FunctionFacts;
use sil_ast::{Function, Module};
use sil_types::TypeTable;

/// A function of a module, with its number and what is known of its values and blocks.
#[derive(Drop)]
pub(crate) struct Body<'b, 'a> {
    pub table: &'a TypeTable,
    pub module: &'a Module,
    pub function: &'a Function,
    pub number: u32,
    pub facts: &'b FunctionFacts<'a>,
}
