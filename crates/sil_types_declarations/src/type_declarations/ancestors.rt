//! Classes and their ancestors. Each call goes up a chain of classes, and no further than the limit on depth.

ghost use Rattle.std.specs.Prelude.{◌≡◌, ◌≤◌, ◌*◌, length, slice_get};
ghost use Rattle.std.specs.Option.{option_copied};
ghost use Rattle.sil_rules.specs.declared.limits.TheConstants.{DEPTH, MEMBERS};
ghost use Rattle.sil_types_declarations.specs.TypeDefinitions.Declarations as declared;
ghost use Rattle.sil_types_declarations.specs.TypeDefinitions.Lookups as lookups;

use crate::type_declarations::table::DeclarationTable;
use sil_ast::{Decl, Field, Text};
use sil_rules::limits::DEPTH;

fn field_in(fields: &[Field], place: usize) -> Option<&Field>
    ensures { option_copied result ≡ slice_get fields.now place }
{
    fields.get(place)
}

impl DeclarationTable {
    /// The superclass of a class, where it has one.
    pub fn superclass(&self, class_name: &Text) -> Option<&Text>
        ensures { option_copied result ≡ declared.superclass_of self.now class_name.now }
    {
        match self.decl_of(class_name) {
            Some(Decl::Class { superclass, .. }) => superclass.as_ref(),
            Some(Decl::Struct { .. }) => None,
            Some(Decl::Enum { .. }) => None,
            None => None,
        }
    }

    /// Whether a class inherits from another, through any number of classes.
    pub fn inherits(&self, class_name: &Text, other: &Text) -> bool
        ensures { result ≡ declared.inherits self.now class_name.now other.now }
    {
        let mut above = self.superclass(class_name);
        for _ in 0..DEPTH {
            let Some(class) = above else {
                return false;
            };
            if *other == *class {
                return true;
            }
            above = self.superclass(class);
        }
        false
    }

    /// Whether more classes than this stand in the chain that begins with one.
    pub fn is_longer(&self, most: u32, first: Option<&Text>) -> bool
        ensures { result ≡ declared.is_longer self.now most (option_copied first.entry) }
    {
        let mut at = first;
        for _ in 0..most {
            let Some(class) = at else {
                return false;
            };
            at = self.superclass(class);
        }
        at.is_some()
    }

    /// The fields that a struct or class declares itself.
    pub fn own_fields(&self, owner: &Text) -> &[Field]
        ensures fields { result.now ≡ lookups.own_fields self.now owner.now }
        ensures few { length result.now ≤ MEMBERS }
    {
        let Some(place) = self.names.place(owner) else {
            return &[];
        };
        match self.all.get(place) {
            Some(Decl::Struct { fields, .. }) => fields.as_slice(),
            Some(Decl::Class { fields, .. }) => fields.as_slice(),
            Some(Decl::Enum { .. }) => &[],
            None => &[],
        }
    }

    /// How many fields a class has with its ancestors, or none without a class.
    pub(crate) fn count_from(&self, class: Option<&Text>) -> usize
        ensures count { result ≡ length (lookups.chain_fields self.now (declared.chain self.now DEPTH (option_copied class.entry))) }
        ensures few { result ≤ DEPTH * MEMBERS }
    {
        let mut count = 0;
        let mut above = class;
        for _ in 0..DEPTH {
            let Some(class) = above else {
                return count;
            };
            count += self.own_fields(class).len();
            above = self.superclass(class);
        }
        count
    }

    /// How many fields a struct or class has, with the inherited ones.
    #[tactic(auto, unfolding(crate::specs::TypeDefinitions::Declarations::ancestors_of))]
    pub fn field_count(&self, owner: &Text) -> usize
        ensures { result ≡ length (lookups.fields_of self.now owner.now) }
    {
        self.count_from(self.superclass(owner)) + self.own_fields(owner).len()
    }

    /// The field at a place of a struct or class, whose inherited fields come first.
    pub fn field_at(&self, owner: &Text, index: u32) -> Option<&Field>
        ensures { option_copied result ≡ lookups.field_at self.now owner.now index }
    {
        let index = index as usize;
        let mut class = owner;
        let mut before = self.count_from(self.superclass(owner));
        for _ in 0..DEPTH {
            if before <= index {
                return field_in(self.own_fields(class), index - before);
            }
            let Some(above) = self.superclass(class) else {
                return None;
            };
            before -= self.own_fields(above).len();
            class = above;
        }
        field_in(self.own_fields(class), index)
    }
}
