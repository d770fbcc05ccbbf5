//! What the layers above ask of a table. No call takes memory.

ghost use Rattle.std.specs.Prelude.{◌≡◌, ◌≤◌, length, option_map};
ghost use Rattle.std.specs.Option.{option_copied};
ghost use Rattle.sil_types_declarations.specs.TypeDefinitions.Declarations.{decl_of, inherits, superclass_of};
ghost use Rattle.sil_types_declarations.specs.TypeDefinitions.Lookups as lookups;
ghost use Rattle.sil_types_declarations.specs.TypeDefinitions.Lookups.{class_place, field_of, payload_of};
ghost use Rattle.sil_types_declarations.specs.TypeDefinitions.Measures as measures;
ghost use Rattle.sil_types_declarations.specs.TypeDefinitions.Measures.{leaves_of};
ghost use Rattle.sil_types_declarations.specs.TypeDeclarations.inner.Found.{field_told, payload_told};

use crate::table::TypeTable;
use sil_ast::{Decl, Field, FuncId, Text, TypeName};
use sil_rules::limits::LEAVES;
use sil_types_declarations::{FieldRef, PayloadRef};

impl TypeTable {
    /// Whether a type holds no reference. An address is taken as its target.
    pub fn is_trivial(&self, ty: &TypeName) -> bool
        ensures { result ≡ measures.is_trivial self.now ty.now }
    {
        self.measure(ty).trivial
    }

    /// The leaves of a type within the limit on them.
    pub fn leaves(&self, ty: &TypeName) -> u32
        requires { leaves_of self.now ty.now ≤ LEAVES }
        ensures { result ≡ leaves_of self.now ty.now }
    {
        self.measure(ty).leaves
    }

    /// The struct, enum or class with this name: one of `Swift`, or one that the text declares.
    pub fn decl(&self, name: &Text) -> Option<&Decl>
        ensures { option_copied result ≡ decl_of self.now name.now }
    {
        self.declarations.decl_of(name)
    }

    /// The superclass of a class, where it has one.
    pub fn superclass(&self, class_name: &Text) -> Option<&Text>
        ensures { option_copied result ≡ superclass_of self.now class_name.now }
    {
        self.declarations.superclass(class_name)
    }

    /// The fields that a struct or class declares itself, in the order of the text.
    pub fn own_fields(&self, owner: &Text) -> &[Field]
        ensures { result.now ≡ lookups.own_fields self.now owner.now }
    {
        self.declarations.own_fields(owner)
    }

    /// Whether a class inherits from another, through any number of classes.
    pub fn inherits(&self, class_name: &Text, other: &Text) -> bool
        ensures { result ≡ inherits self.now class_name.now other.now }
    {
        self.declarations.inherits(class_name, other)
    }

    /// The field with this name that a struct or class declares itself.
    pub fn field(&self, owner: &Text, name: &Text) -> Option<FieldRef<'_>>
        ensures { option_map field_told result ≡ field_of self.now owner.now name.now }
    {
        self.declarations.field(owner, name)
    }

    /// How many fields a struct or class has, with the inherited ones.
    pub fn field_count(&self, owner: &Text) -> usize
        ensures { result ≡ length (lookups.fields_of self.now owner.now) }
    {
        self.declarations.field_count(owner)
    }

    /// The field at a place of a struct or class, whose inherited fields come first.
    pub fn field_at(&self, owner: &Text, index: u32) -> Option<&Field>
        ensures { option_copied result ≡ lookups.field_at self.now owner.now index }
    {
        self.declarations.field_at(owner, index)
    }

    /// The case with this name of an enum type: `none` and `some` of an Optional, or one that the text declares.
    pub fn payload<'t>(&'t self, ty: &'t TypeName, case_name: &Text) -> Option<PayloadRef<'t>>
        ensures { option_map payload_told result ≡ payload_of self.now ty.now case_name.now }
    {
        self.declarations.payload(ty, case_name)
    }

    /// The deinitialiser that the vtable of a class names.
    pub fn deinit_of(&self, class_name: &Text) -> Option<FuncId>
        ensures { result ≡ lookups.deinit_of self.now class_name.now }
    {
        self.declarations.deinit_of(class_name)
    }

    /// The place of a class among the declarations of the text.
    pub fn class_index(&self, class_name: &Text) -> Option<u32>
        ensures { result ≡ class_place self.now class_name.now }
    {
        self.declarations.class_index(class_name)
    }

    /// The name of the class at a place among the declarations of the text.
    pub fn class_at(&self, index: u32) -> Option<&Text>
        ensures { option_copied result ≡ lookups.class_at self.now index }
    {
        self.declarations.class_at(index)
    }
}
