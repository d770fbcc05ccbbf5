//! The tables that name the deinitialisers of classes.

use crate::exhausted::Exhausted;
use crate::place::FuncId;
use crate::text::Text;
use crate::try_clone::TryClone;
use std::alloc::Global;

/// The table of a class: `sil_vtable Node { .. }`, with its deinitialiser where it has one.
#[derive(Drop)]
pub struct Vtable {
    pub class_name: Text,
    pub entry: Option<DeinitEntry>,
}

/// The entry `#Node.deinit!destroyer: @node_deinit`.
#[derive(Drop)]
pub struct DeinitEntry {
    pub owner: Text,
    pub function: FuncId,
}

impl TryClone for Vtable {
    fn try_clone(&self, alloc: Global) -> Result<Vtable, Exhausted> {
        Ok(Vtable {
            class_name: self.class_name.try_clone(alloc)?,
            entry: self.entry.try_clone(alloc)?,
        })
    }
}

impl TryClone for DeinitEntry {
    fn try_clone(&self, alloc: Global) -> Result<DeinitEntry, Exhausted> {
        Ok(DeinitEntry {
            owner: self.owner.try_clone(alloc)?,
            function: self.function,
        })
    }
}
