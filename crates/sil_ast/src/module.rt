//! A whole module, its values, blocks and functions by number.

ghost use Rattle.std.specs.Prelude.{◌≡◌, IfOk};

use crate::decl::Decl;
use crate::exhausted::Exhausted;
use crate::function::Function;
use crate::list::List;
use crate::try_clone::TryClone;
use crate::vtable::Vtable;
use std::alloc::Global;

/// A module: `sil_stage canonical`, `import Swift`, and its declarations, functions and vtables,
/// each kind in the order of the text.
#[derive(Drop)]
pub struct Module {
    pub stage: Stage,
    pub imports: Imports,
    pub decls: List<Decl>,
    pub functions: List<Function>,
    pub vtables: List<Vtable>,
}

/// `sil_stage raw` or `sil_stage canonical`.
#[derive(Clone, Copy, Debug, PartialEq, Eq)]
pub enum Stage {
    Raw,
    Canonical,
}

/// Which of `import Builtin` and `import Swift` the module has.
#[derive(Clone, Copy, Debug, PartialEq, Eq)]
pub struct Imports {
    pub builtin: bool,
    pub swift: bool,
}

impl Module {
    /// A copy in memory of its own.
    pub fn try_clone(&self, alloc: Global) -> Result<Module, Exhausted>
        ensures { IfOk result (λ copy. copy ≡ self.now) }
    {
        Ok(Module {
            stage: self.stage,
            imports: self.imports,
            decls: self.decls.try_clone(alloc)?,
            functions: self.functions.try_clone(alloc)?,
            vtables: self.vtables.try_clone(alloc)?,
        })
    }
}
