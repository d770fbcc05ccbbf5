//! A whole module as a text writes it. Nothing here is resolved.

use crate::written_tree::spelling::Spelling;
use crate::written_tree::written_declarations::{WrittenDecl, WrittenToken};
use crate::written_tree::written_functions::WrittenFunction;
use sil_ast::{Imports, List, Stage};

/// A text's stage, its imports, and its items in order.
#[derive(Drop)]
pub struct WrittenModule {
    pub stage: Stage,
    pub imports: Imports,
    pub items: List<WrittenItem>,
}

/// A declaration, a function, or a table with a class's deinitialiser.
#[derive(Drop)]
pub enum WrittenItem {
    Decl(WrittenDecl),
    Function(WrittenFunction),
    Vtable(WrittenVtable),
}

/// `sil_vtable C { .. }`
#[derive(Drop)]
pub struct WrittenVtable {
    pub class_name: WrittenToken,
    pub entry: Option<WrittenEntry>,
}

/// `#C.deinit!destroyer: @f`
#[derive(Drop)]
pub struct WrittenEntry {
    pub owner: Spelling,
    pub function: WrittenToken,
}
