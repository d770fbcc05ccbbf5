//! Some of the parts, searched together.

use crate::part::Part;
use memory_rules_accesses::{Access, Memory};
use ownership_kinds_chains::Kinds;
use sil_ast::{Function, ValueId};
use sil_cfg_items::Taken;
use std::alloc::Global;

/// Parts of a function, each by its number among them, and what tells to which of them an access may mean something.
#[derive(Drop)]
pub(crate) struct Batch<'a> {
    pub f: &'a Function,
    pub k: &'a Kinds,
    pub m: &'a Memory,
    pub parts: &'a [Part],
    /// The values that concern the parts, by rows: an access that has to do with none of them means nothing to any part.
    pub concerned: &'a [bool],
    /// The numbers of the parts that have a key, where there are many parts.
    pub index: Option<Vec<Vec<u32>>>,
}

/// Memory for what an item does.
#[derive(Drop)]
pub(crate) struct Room {
    pub accesses: Vec<Access>,
    pub taken: Vec<Taken>,
    pub defined: Vec<ValueId>,
}

impl Room {
    pub fn new(alloc: Global) -> Room {
        Room {
            accesses: Vec::new(alloc),
            taken: Vec::new(alloc),
            defined: Vec::new(alloc),
        }
    }
}
