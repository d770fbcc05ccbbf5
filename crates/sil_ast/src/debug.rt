//! What an instruction says for a debugger.

use crate::boxed::Boxed;
use crate::exhausted::Exhausted;
use crate::text::Text;
use crate::try_clone::TryClone;
use std::alloc::Global;

/// The variable that an instruction shows: `, let, name "x", argno 1, expr op_deref`, each part optional.
#[derive(Drop)]
pub struct Debug {
    pub name: Option<Boxed<Text>>,
    pub binding: Option<Binding>,
    pub argno: Option<u16>,
    pub deref: bool,
}

/// `let` or `var`.
#[derive(Clone, Copy, Debug, PartialEq, Eq)]
pub enum Binding {
    Let,
    Var,
}

impl TryClone for Debug {
    fn try_clone(&self, alloc: Global) -> Result<Debug, Exhausted> {
        Ok(Debug {
            name: self.name.try_clone(alloc)?,
            binding: self.binding,
            argno: self.argno,
            deref: self.deref,
        })
    }
}
