//! A function while it is made ready.

ghost use Rattle.std.specs.Prelude.{◌≡◌};
ghost use Rattle.holder_model.specs.RunTyping.Forms.{form_of};
ghost use Rattle.count_machine_layouts.specs.FrameLayouts.inner.Layouts.{kept_of};
ghost use Rattle.count_machine_ready.specs.inner.Bodies.{IsBody, declared, local, local_address};

use count_machine_layouts::{Kept, Layout};
use count_machine_model::{Local, LocalAddress};
use sil_ast::{Function, Module, ValueId};
use sil_types::TypeTable;

/// A function of a module, with its layout and those of all functions that are reached.
#[derive(Clone, Copy)]
pub(crate) struct Body<'a> {
    pub table: &'a TypeTable,
    pub m: &'a Module,
    pub layouts: &'a [Layout],
    pub function: &'a Function,
    pub layout: &'a Layout,
}

impl Body<'_> {
    /// What is kept of a value.
    pub(crate) fn kept(&self, value: ValueId) -> Kept
        requires { IsBody self.now }
        ensures { result ≡ kept_of (form_of (declared self.now) self.now.function.now value) }
    {
        self.layout.kept(value)
    }

    /// Where the leaves of a value stand.
    pub(crate) fn local(&self, value: ValueId) -> Local
        requires { IsBody self.now }
        ensures { result ≡ local self.now value }
    {
        self.layout.local(value)
    }

    /// Where an address stands.
    pub(crate) fn address(&self, value: ValueId) -> LocalAddress
        requires { IsBody self.now }
        ensures { result ≡ local_address self.now value }
    {
        self.layout.address(value)
    }
}
