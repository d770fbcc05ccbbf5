//! What a table holds, for those who copy it or lay its types out.

ghost use Rattle.std.specs.Prelude.{◌≡◌, ◌≤◌, SomeIff};
ghost use Rattle.sil_types_declarations.specs.TypeDefinitions.Measures.{leaves_of};

use crate::table::TypeTable;
use sil_ast::{Decl, TypeName, Vtable};
use sil_rules::limits::LEAVES;

impl TypeTable {
    /// Whether `Swift` is imported.
    pub fn has_swift(&self) -> bool
        ensures { result ≡ self.now.swift }
    {
        self.declarations.has_swift()
    }

    /// The declarations of the text.
    pub fn decls(&self) -> &[Decl]
        ensures { result.now ≡ self.now.decls }
    {
        let imported = self.declarations.imported();
        &self.declarations.decls()[imported..]
    }

    /// The vtables of the text.
    pub fn vtables(&self) -> &[Vtable]
        ensures { result.now ≡ self.now.vtables }
    {
        self.declarations.vtables()
    }

    /// The leaves of a type, if it is within the limit on them.
    pub fn leaves_within(&self, ty: &TypeName) -> Option<u32>
        ensures { SomeIff result (leaves_of self.now ty.now ≤ LEAVES) (leaves_of self.now ty.now) }
    {
        let leaves = self.measure(ty).leaves;
        if leaves <= LEAVES { Some(leaves) } else { None }
    }
}
