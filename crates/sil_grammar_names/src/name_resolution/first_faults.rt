//! The first faults so far. Where two stand at one place the kind of name decides, so each kind is kept apart.

ghost use Rattle.std.specs.Prelude.{◌≡◌, None};
ghost use Rattle.sil_grammar_tree.specs.WrittenTree.Faults.{earlier};

use sil_grammar_tree::{Fault, earlier};

/// In the code of a function: the first function, label and value that is used and not defined. Labels and values begin
/// with the first that is defined twice.
#[derive(Clone, Copy)]
pub(crate) struct CodeFaults {
    pub(crate) functions: Option<Fault>,
    pub(crate) labels: Option<Fault>,
    pub(crate) values: Option<Fault>,
}

/// In items: the first function that is used and not defined, the first member that is defined twice, and the first
/// fault of a label or a value.
#[derive(Clone, Copy)]
pub(crate) struct ItemFaults {
    pub(crate) functions: Option<Fault>,
    pub(crate) members: Option<Fault>,
    pub(crate) bodies: Option<Fault>,
}

impl ItemFaults {
    pub(crate) fn none() -> ItemFaults
        ensures { result ≡ record { functions = None; members = None; bodies = None } }
    {
        ItemFaults {
            functions: None,
            members: None,
            bodies: None,
        }
    }

    pub(crate) fn first(self) -> Option<Fault>
        ensures { result ≡ earlier self.functions (earlier self.members self.bodies) }
    {
        earlier(self.functions, earlier(self.members, self.bodies))
    }
}
