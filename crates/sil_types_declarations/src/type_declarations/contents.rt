//! What a table holds, for those who copy it.

ghost use Rattle.std.specs.Prelude.{◌≡◌};

use crate::type_declarations::table::DeclarationTable;
use sil_ast::Vtable;

impl DeclarationTable {
    /// The vtables of the text.
    pub fn vtables(&self) -> &[Vtable]
        ensures { result.now ≡ self.now.vtables }
    {
        self.vtables.as_slice()
    }
}
