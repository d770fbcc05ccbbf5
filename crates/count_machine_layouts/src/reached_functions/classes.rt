//! Classes, made ready to run.

ghost use Rattle.std.specs.Prelude.{◌≡◌, ◌++◌, ◌∷◌, IfOk, OnOk, map};
ghost use Rattle.std.specs.List.{flat_map};
ghost use Rattle.holder_model_typing.specs.holder_model.Dropping.{deinits_of_class};
ghost use Rattle.sil_types_declarations.specs.TypeDefinitions.Declarations.{ancestors_of};
ghost use Rattle.sil_types_declarations.specs.TypeDefinitions.Lookups as lookups;
ghost use Rattle.count_machine_model.specs.ReadyCode.ReadyModules as spec;
ghost use Rattle.count_machine_layouts.specs.ReachedFunctions.inner.Names.{class_named, names_told};

use count_machine_model::ReadyClass;
use sil_ast::{Decl, Exhausted, Field, FuncId, List, Storage, Text};
use sil_rules::limits::DEPTH;
use sil_types::TypeTable;
use std::alloc::Global;

/// A class and its ancestors, the nearest first.
fn class_chain<'t>(
    alloc: Global,
    table: &'t TypeTable,
    class: &'t Text,
) -> Result<Vec<&'t Text>, Exhausted>
    ensures { IfOk result (λ chain. names_told chain.items ≡ class.now ∷ ancestors_of table.now class.now) }
{
    let mut chain = Vec::new(alloc);
    chain.push(class)?;
    let mut above = table.superclass(class);
    for _ in 0..DEPTH {
        let Some(class) = above else {
            return Ok(chain);
        };
        chain.push(class)?;
        above = table.superclass(class);
    }
    Ok(chain)
}

/// The deinitialisers of some classes, those that there are.
fn deinits_of(alloc: Global, table: &TypeTable, chain: &[&Text]) -> Result<List<FuncId>, Exhausted>
    ensures { IfOk result (λ deinits. deinits ≡ flat_map (deinits_of_class table.now) (names_told chain.now)) }
{
    let mut deinits = List::new(alloc);
    for class in chain {
        if let Some(function) = table.deinit_of(class) {
            deinits.push(function)?;
        }
    }
    Ok(deinits)
}

/// Adds how some fields are stored.
fn add_storages(storages: &mut List<Storage>, fields: &[Field]) -> Result<(), Exhausted>
    ensures { OnOk result (storages.new ≡ storages.old ++ map spec.storage_of fields.now) }
{
    for field in fields {
        storages.push(field.storage)?;
    }
    Ok(())
}

/// How the fields of a class and its ancestors are stored, those of the last one first.
fn storages_of(
    alloc: Global,
    table: &TypeTable,
    mut chain: Vec<&Text>,
) -> Result<List<Storage>, Exhausted>
    ensures { IfOk result (λ storages. storages ≡ map spec.storage_of (lookups.chain_fields table.now (names_told chain.entry.items))) }
{
    let mut storages = List::new(alloc);
    while let Some(class) = chain.pop() {
        add_storages(&mut storages, table.own_fields(class))?;
    }
    Ok(storages)
}

/// The class with this name.
fn ready_class_named(alloc: Global, table: &TypeTable, name: &Text) -> Result<ReadyClass, Exhausted>
    ensures { IfOk result (λ class. class ≡ class_named table.now name.now) }
{
    let chain = class_chain(alloc, table, name)?;
    let deinits = deinits_of(alloc, table, chain.as_slice())?;
    Ok(ReadyClass {
        deinits,
        fields: storages_of(alloc, table, chain)?,
    })
}

fn ready_class(alloc: Global, table: &TypeTable, decl: &Decl) -> Result<ReadyClass, Exhausted>
    ensures { IfOk result (λ class. class ≡ spec.ready_class table.now decl.now) }
{
    match decl {
        Decl::Class { name, .. } => ready_class_named(alloc, table, name),
        _ => Ok(ReadyClass {
            deinits: List::new(alloc),
            fields: List::new(alloc),
        }),
    }
}

/// The classes among some declarations, made ready; what is no class has neither deinitialisers nor fields.
pub fn ready_classes(
    alloc: Global,
    table: &TypeTable,
    decls: &[Decl],
) -> Result<List<ReadyClass>, Exhausted>
    ensures { IfOk result (λ classes. classes ≡ map (spec.ready_class table.now) decls.now) }
{
    let mut classes = List::with_capacity(alloc, decls.len())?;
    for decl in decls {
        classes.push(ready_class(alloc, table, decl)?)?;
    }
    Ok(classes)
}
