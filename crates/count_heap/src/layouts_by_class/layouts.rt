//! The layouts of all classes.

ghost use Rattle.std.specs.Prelude.{◌≡◌, IfOk, length};
ghost use Rattle.std.specs.Option.{option_copied};
ghost use Rattle.sil_types.specs.sil_types_declarations.TypeDefinitions.Lookups as lookups;
ghost use Rattle.count_heap.specs.LayoutsByClass.ClassFields.{AreFieldsInLimits, leaves_by_field};
ghost use Rattle.count_heap.specs.LayoutsByClass.Layouts.{places_from, size_of};
ghost use Rattle.count_heap.specs.LayoutsByClass.inner.Kept.{AreLayouts};

use crate::layouts_by_class::field_place::FieldPlace;
use crate::layouts_by_class::places::places_of_decl;
use number_tables::ItemLists;
use sil_ast::{Decl, Exhausted, List, Text, TryClone, Vtable};
use sil_types::TypeTable;
use std::alloc::Global;
use std::marker::Model;

/// How the fields of each class lie. To a contract it is what the module declares.
#[derive(Drop)]
pub struct ClassLayouts {
    swift: bool,
    decls: List<Decl>,
    vtables: List<Vtable>,
    /// By the place of a declaration in the text. Those that aren't classes have no fields here.
    places: ItemLists<FieldPlace>,
    sizes: Vec<u32>,
}

impl Model for ClassLayouts {
    ghost use Rattle.std.specs.Coded.{codes};
    ghost use Rattle.sil_ast.specs.contracts.type_name.TypeName as type_name;
    ghost use Rattle.sil_types.specs.sil_types_declarations.TypeDefinitions.Declarations.{Declarations};

    ghost Value = { Declarations };

    ghost coded = { Prim.hlevel (codes, type_name.the_row.coded) };

    ghost use Rattle.count_heap.specs.LayoutsByClass.inner.Kept.{AreLayouts};

    ghost view = { λ l. record { swift = l.swift; decls = l.decls; vtables = l.vtables } };

    ghost invariant = { λ l. AreLayouts (record { swift = l.swift; decls = l.decls; vtables = l.vtables }) l.places l.sizes.items };
}

fn copied_decls(alloc: Global, decls: &[Decl]) -> Result<List<Decl>, Exhausted>
    ensures { IfOk result (λ copies. copies ≡ decls.now) }
{
    let mut copies = List::with_capacity(alloc, decls.len())?;
    for decl in decls {
        copies.push(decl.try_clone(alloc)?)?;
    }
    Ok(copies)
}

fn copied_vtables(alloc: Global, vtables: &[Vtable]) -> Result<List<Vtable>, Exhausted>
    ensures { IfOk result (λ copies. copies ≡ vtables.now) }
{
    let mut copies = List::with_capacity(alloc, vtables.len())?;
    for vtable in vtables {
        copies.push(vtable.try_clone(alloc)?)?;
    }
    Ok(copies)
}

/// The places of the fields of each declaration, and how many leaves they take.
#[derive(Drop)]
struct AllPlaces {
    places: ItemLists<FieldPlace>,
    sizes: Vec<u32>,
}

fn all_places(alloc: Global, table: &TypeTable) -> Result<AllPlaces, Exhausted>
    requires { AreFieldsInLimits table.now }
    ensures { IfOk result (λ all. AreLayouts table.now all.places all.sizes.items) }
{
    let decls = table.decls();
    let mut places = ItemLists::with_capacity(alloc, decls.len())?;
    let mut sizes = Vec::with_capacity(alloc, decls.len())?;
    for decl in decls {
        let of_decl = places_of_decl(alloc, table, decl)?;
        places.push(of_decl.places.as_slice())?;
        sizes.push(of_decl.size)?;
    }
    Ok(AllPlaces { places, sizes })
}

impl ClassLayouts {
    /// The layouts of the classes of a table. No class whose fields are in their limits is too large to be laid out.
    pub fn of(alloc: Global, table: &TypeTable) -> Result<ClassLayouts, Exhausted>
        requires { AreFieldsInLimits table.now }
        ensures { IfOk result (λ layouts. layouts ≡ table.now) }
    {
        let AllPlaces { places, sizes } = all_places(alloc, table)?;
        let decls = copied_decls(alloc, table.decls())?;
        let vtables = copied_vtables(alloc, table.vtables())?;
        Ok(ClassLayouts {
            swift: table.has_swift(),
            decls,
            vtables,
            places,
            sizes,
        })
    }

    /// The name of the class at a place among the declarations.
    pub fn class_name(&self, class: u32) -> Option<&Text>
        ensures { option_copied result ≡ lookups.class_at self.now class }
    {
        match self.decls.get(class as usize) {
            Some(Decl::Class { name, .. }) => Some(name),
            Some(Decl::Struct { .. }) => None,
            Some(Decl::Enum { .. }) => None,
            None => None,
        }
    }

    /// Where the fields of the class at a place among the declarations lie.
    #[inline]
    pub fn fields(&self, class: u32) -> &[FieldPlace]
        ensures { result.now ≡ places_from 0 (leaves_by_field self.now class) }
    {
        self.places.at(class as usize)
    }

    /// How many fields an object of the class has.
    #[inline]
    pub fn field_count(&self, class: u32) -> u32
        ensures { result ≡ length (leaves_by_field self.now class) }
    {
        let _at_most = self.size(class);
        self.fields(class).len() as u32
    }

    /// How many leaves an object of the class takes.
    #[inline]
    pub fn size(&self, class: u32) -> u32
        ensures { result ≡ size_of (leaves_by_field self.now class) }
    {
        let sizes = self.sizes.as_slice();
        if class as usize >= sizes.len() {
            return 0;
        }
        sizes[class as usize]
    }
}
