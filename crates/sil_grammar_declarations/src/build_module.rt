//! Builds a module's stage, its imports and its items, its functions and its tables of deinitialisers, and puts them
//! before the values that wait.

ghost use Rattle.std.specs.Prelude.{◌≡◌, [], ◌∷◌, ◌≤◌, false, length, IfOk, OnOk};
ghost use Rattle.sil_grammar_tables.specs.declared.grammar.Production.{Production};
ghost use Rattle.sil_grammar_values.specs.declared.value.Value.TheVariants as v;
ghost use Rattle.sil_grammar_values.specs.Imports.{with_import};
ghost use Rattle.sil_grammar_values.specs.inner.PartFaults.{part_fault};
ghost use Rattle.sil_grammar_values.specs.inner.Reduced.{parts_of, reduced};

use crate::counted_faults::{body_fault, module_fault, too_many_attributes};
use sil_ast::{Boxed, Exhausted, Imports, Stage};
use sil_grammar_tables::Production;
use sil_grammar_tree::{
    Fault, WrittenEntry, WrittenFunction, WrittenItem, WrittenModule, WrittenVtable, earlier,
};
use sil_grammar_values::nothing::skip;
use sil_grammar_values::prepended::Prepended;
use sil_grammar_values::put::{put, put_value};
use sil_grammar_values::value::{Reduced, Value};
use std::alloc::Global;

/// Puts a module of its stage, its imports and its items.
#[inline(never)]
#[tactic(auto, unfolding(sil_grammar_values::specs::inner::Reduced::reducing))]
pub(crate) fn whole_module(
    alloc: Global,
    values: &mut Prepended<Value>,
) -> Result<Option<Fault>, Exhausted>
    requires { 3 ≤ length values.old }
    ensures values { OnOk result (values.new ≡ reduced Production.WholeModule values.old) }
    ensures fault { IfOk result (λ fault. fault ≡ part_fault Production.WholeModule (parts_of Production.WholeModule values.old)) }
{
    let stage = values.pop_front().into_stage();
    let imports = values.pop_front().into_imports();
    let items = values.pop_front().into_items(alloc);
    let fault = module_fault(&items);
    let value = Value::Module(WrittenModule {
        stage,
        imports,
        items: items.into_list(),
    });
    put(Reduced { value, fault }, values)
}

/// Puts the stage of a module.
#[inline(never)]
pub(crate) fn stage(stage: Stage, values: &mut Prepended<Value>) -> Result<(), Exhausted>
    ensures values { OnOk result (values.new ≡ v.Stage stage ∷ values.old) }
{
    put_value(Value::Stage(stage), values)
}

/// The imports, and the one of this name.
fn with_import(name: &[u8], imports: Imports) -> Imports
    ensures { result ≡ with_import name.now imports }
{
    Imports {
        builtin: name == b"Builtin".as_slice() || imports.builtin,
        swift: name == b"Swift".as_slice() || imports.swift,
    }
}

/// Puts an import, and the imports behind it.
#[inline(never)]
#[tactic(auto, unfolding(sil_grammar_values::specs::inner::Reduced::standing))]
pub(crate) fn more_imports(values: &mut Prepended<Value>) -> Result<(), Exhausted>
    requires { 3 ≤ length values.old }
    ensures values { OnOk result (values.new ≡ reduced Production.ImportsMore values.old) }
{
    skip(values);
    let name = values.pop_front().into_token();
    let imports = values.pop_front().into_imports();
    let imports = with_import(name.text.as_slice(), imports);
    put_value(Value::Imports(imports), values)
}

/// Puts that there are no imports, or no more of them.
#[inline(never)]
pub(crate) fn no_imports(values: &mut Prepended<Value>) -> Result<(), Exhausted>
    ensures values { OnOk result (values.new ≡ v.Imports (record { builtin = false; swift = false }) ∷ values.old) }
{
    let imports = Imports {
        builtin: false,
        swift: false,
    };
    put_value(Value::Imports(imports), values)
}

/// Puts an item, and the items behind it.
#[inline(never)]
#[tactic(auto, unfolding(sil_grammar_values::specs::inner::Reduced::standing))]
pub(crate) fn more_items(alloc: Global, values: &mut Prepended<Value>) -> Result<(), Exhausted>
    requires { 2 ≤ length values.old }
    ensures values { OnOk result (values.new ≡ reduced Production.ItemsMore values.old) }
{
    let item = values.pop_front().into_item(alloc);
    let mut items = values.pop_front().into_items(alloc);
    items.push_front(item)?;
    put_value(Value::Items(items), values)
}

/// Puts that there are no items, or no more of them.
#[inline(never)]
pub(crate) fn no_items(alloc: Global, values: &mut Prepended<Value>) -> Result<(), Exhausted>
    ensures values { OnOk result (values.new ≡ v.Items [] ∷ values.old) }
{
    put_value(Value::Items(Prepended::new(alloc)), values)
}

/// Puts the table of a class of its name and its entry.
#[inline(never)]
#[tactic(auto, unfolding(sil_grammar_values::specs::inner::Reduced::standing))]
pub(crate) fn vtable(alloc: Global, values: &mut Prepended<Value>) -> Result<(), Exhausted>
    requires { 5 ≤ length values.old }
    ensures values { OnOk result (values.new ≡ reduced Production.VtableItem values.old) }
{
    skip(values);
    let class_name = values.pop_front().into_token();
    skip(values);
    let entry = values.pop_front().into_entry();
    skip(values);
    let vtable = WrittenVtable { class_name, entry };
    let item = Boxed::new(alloc, WrittenItem::Vtable(vtable))?;
    put_value(Value::Item(item), values)
}

/// Puts the entry of a table of its class and its function.
#[inline(never)]
#[tactic(auto, unfolding(sil_grammar_values::specs::inner::Reduced::standing))]
pub(crate) fn entry(alloc: Global, values: &mut Prepended<Value>) -> Result<(), Exhausted>
    requires { 8 ≤ length values.old }
    ensures values { OnOk result (values.new ≡ reduced Production.EntrySome values.old) }
{
    skip(values);
    let owner = values.pop_front().into_token().text;
    skip(values);
    skip(values);
    skip(values);
    skip(values);
    skip(values);
    let function = values.pop_front().into_token();
    let entry = Boxed::new(alloc, WrittenEntry { owner, function })?;
    put_value(Value::Entry(entry), values)
}

/// Puts a function of its linkage, its words in brackets, its name, its signature and its blocks.
#[inline(never)]
#[tactic(auto, unfolding(sil_grammar_values::specs::inner::Reduced::reducing))]
pub(crate) fn function(
    alloc: Global,
    values: &mut Prepended<Value>,
) -> Result<Option<Fault>, Exhausted>
    requires { 8 ≤ length values.old }
    ensures values { OnOk result (values.new ≡ reduced Production.FunctionItem values.old) }
    ensures fault { IfOk result (λ fault. fault ≡ part_fault Production.FunctionItem (parts_of Production.FunctionItem values.old)) }
{
    skip(values);
    let linkage = values.pop_front().into_linkage();
    let attributes = values.pop_front().into_tokens(alloc);
    let name = values.pop_front().into_token();
    skip(values);
    skip(values);
    let signature = values.pop_front().into_signature(alloc);
    let blocks = values.pop_front().into_blocks(alloc);
    let fault = earlier(too_many_attributes(&attributes), body_fault(&blocks));
    let function = WrittenFunction {
        name,
        linkage,
        attributes: attributes.into_list(),
        signature,
        blocks: blocks.into_list(),
    };
    let value = Value::Item(Boxed::new(alloc, WrittenItem::Function(function))?);
    put(Reduced { value, fault }, values)
}
