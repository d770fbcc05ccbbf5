//! Builds declarations and their members, and puts them before the values that wait.

ghost use Rattle.std.specs.Prelude.{◌≡◌, [], ◌∷◌, ◌≤◌, List, length, map, IfOk, OnOk};
ghost use Rattle.sil_rules.specs.declared.limits.TheConstants.{MEMBERS};
ghost use Rattle.sil_rules.specs.declared.limit_word.LimitWord.TheVariants as limit;
ghost use Rattle.sil_grammar_tables.specs.declared.grammar.Production.{Production};
ghost use Rattle.sil_grammar_values.specs.declared.value.Value.{Value};
ghost use Rattle.sil_grammar_values.specs.declared.value.Value.TheVariants as v;
ghost use Rattle.sil_grammar_values.specs.inner.Meaning as meant;
ghost use Rattle.sil_grammar_values.specs.inner.PartFaults.{part_fault};
ghost use Rattle.sil_grammar_values.specs.inner.Reduced.{parts_of, reduced};
ghost use Rattle.sil_grammar_values.specs.Values.{field_before, field_of, fields_of, superclass_of, token_of};
ghost use Rattle.sil_grammar_tree.specs.WrittenTree.Faults as faults;
ghost use Rattle.sil_grammar_tree.specs.WrittenTree.Places as placed;
ghost use Rattle.sil_grammar_tree.specs.declared.written_tree.written_declarations.WrittenDecl.TheVariants as decl;
ghost use Rattle.sil_grammar_tree.specs.declared.written_tree.written_module.WrittenItem.TheVariants as item;

use sil_ast::{Boxed, Exhausted, List, Storage};
use sil_grammar_tables::Production;
use sil_grammar_tree::{Fault, WrittenCase, WrittenDecl, WrittenField, WrittenItem, WrittenToken};
use sil_grammar_values::faults::too_many;
use sil_grammar_values::nothing::{discard, skip};
use sil_grammar_values::prepended::Prepended;
use sil_grammar_values::put::{put, put_value};
use sil_grammar_values::value::{Reduced, Value};
use sil_rules::{LimitWord, limits};
use std::alloc::Global;

/// Puts a declaration, and answers its fault.
fn put_declared(
    alloc: Global,
    decl: WrittenDecl,
    fault: Option<Fault>,
    values: &mut Prepended<Value>,
) -> Result<Option<Fault>, Exhausted>
    ensures value { OnOk result (values.new ≡ v.Item (item.Decl decl) ∷ values.old) }
    ensures fault { IfOk result (λ answered. answered ≡ fault) }
{
    let item = Boxed::new(alloc, WrittenItem::Decl(decl))?;
    let value = Value::Item(item);
    put(Reduced { value, fault }, values)
}

/// The fields of a class or a struct.
#[derive(Drop)]
struct Fielded {
    fields: List<WrittenField>,
    /// The fault of fields that become too many.
    fault: Option<Fault>,
}

/// Takes the fields in braces away.
fn braced_fields(alloc: Global, values: &mut Prepended<Value>) -> Fielded
    requires { 3 ≤ length values.old }
    ensures { (opening fields closing : Value) × (values.old ≡ opening ∷ fields ∷ closing ∷ values.new)
        × (result.fields ≡ fields_of fields)
        × (result.fault ≡ faults.passed limit.Members MEMBERS (map placed.field_place (fields_of fields))) }
{
    skip(values);
    let fields = values.pop_front().into_fields(alloc);
    skip(values);
    let fault = too_many(LimitWord::Members, &fields, limits::MEMBERS);
    Fielded {
        fields: fields.into_list(),
        fault,
    }
}

/// Puts a class, whose name is the first value.
#[inline(never)]
fn put_class(alloc: Global, values: &mut Prepended<Value>) -> Result<Option<Fault>, Exhausted>
    requires { 5 ≤ length values.old }
    ensures values { OnOk result ((name superclass opening fields closing : Value) × (rest : List Value)
        × (values.old ≡ name ∷ superclass ∷ opening ∷ fields ∷ closing ∷ rest)
        × (values.new ≡ v.Item (item.Decl (decl.Class (token_of name) (superclass_of superclass) (fields_of fields))) ∷ rest)) }
    ensures fault { IfOk result (λ fault. (name superclass opening fields closing : Value) × (rest : List Value)
        × (values.old ≡ name ∷ superclass ∷ opening ∷ fields ∷ closing ∷ rest)
        × (fault ≡ faults.passed limit.Members MEMBERS (map placed.field_place (fields_of fields)))) }
{
    let name = values.pop_front().into_token();
    let superclass = values.pop_front().into_superclass();
    let Fielded { fields, fault } = braced_fields(alloc, values);
    let decl = WrittenDecl::Class {
        name,
        superclass,
        fields,
    };
    put_declared(alloc, decl, fault, values)
}

/// Puts a class that isn't final.
#[inline(never)]
#[tactic(auto, unfolding(sil_grammar_values::specs::inner::Reduced::reducing))]
pub(crate) fn plain_class(
    alloc: Global,
    values: &mut Prepended<Value>,
) -> Result<Option<Fault>, Exhausted>
    requires { 6 ≤ length values.old }
    ensures values { OnOk result (values.new ≡ reduced Production.PlainClass values.old) }
    ensures fault { IfOk result (λ fault. fault ≡ part_fault Production.PlainClass (parts_of Production.PlainClass values.old)) }
{
    skip(values);
    put_class(alloc, values)
}

/// Puts a final class.
#[inline(never)]
#[tactic(auto, unfolding(sil_grammar_values::specs::inner::Reduced::reducing))]
pub(crate) fn final_class(
    alloc: Global,
    values: &mut Prepended<Value>,
) -> Result<Option<Fault>, Exhausted>
    requires { 7 ≤ length values.old }
    ensures values { OnOk result (values.new ≡ reduced Production.FinalClass values.old) }
    ensures fault { IfOk result (λ fault. fault ≡ part_fault Production.FinalClass (parts_of Production.FinalClass values.old)) }
{
    skip(values);
    skip(values);
    put_class(alloc, values)
}

/// Puts the name of a superclass.
#[inline(never)]
#[tactic(auto, unfolding(sil_grammar_values::specs::inner::Reduced::standing))]
pub(crate) fn superclass(values: &mut Prepended<Value>) -> Result<(), Exhausted>
    requires { 2 ≤ length values.old }
    ensures values { OnOk result (values.new ≡ reduced Production.SuperclassSome values.old) }
{
    skip(values);
    let name = values.pop_front().into_token();
    put_value(Value::Token(name), values)
}

/// Puts a struct.
#[inline(never)]
#[tactic(auto, unfolding(sil_grammar_values::specs::inner::Reduced::reducing))]
pub(crate) fn struct_item(
    alloc: Global,
    values: &mut Prepended<Value>,
) -> Result<Option<Fault>, Exhausted>
    requires { 5 ≤ length values.old }
    ensures values { OnOk result (values.new ≡ reduced Production.StructItem values.old) }
    ensures fault { IfOk result (λ fault. fault ≡ part_fault Production.StructItem (parts_of Production.StructItem values.old)) }
{
    skip(values);
    let name = values.pop_front().into_token();
    let Fielded { fields, fault } = braced_fields(alloc, values);
    put_declared(alloc, WrittenDecl::Struct { name, fields }, fault, values)
}

/// Puts an enum.
#[inline(never)]
#[tactic(auto, unfolding(sil_grammar_values::specs::inner::Reduced::reducing))]
pub(crate) fn enum_item(
    alloc: Global,
    values: &mut Prepended<Value>,
) -> Result<Option<Fault>, Exhausted>
    requires { 5 ≤ length values.old }
    ensures values { OnOk result (values.new ≡ reduced Production.EnumItem values.old) }
    ensures fault { IfOk result (λ fault. fault ≡ part_fault Production.EnumItem (parts_of Production.EnumItem values.old)) }
{
    skip(values);
    let name = values.pop_front().into_token();
    skip(values);
    let cases = values.pop_front().into_cases(alloc);
    skip(values);
    let fault = too_many(LimitWord::Members, &cases, limits::MEMBERS);
    let cases = cases.into_list();
    put_declared(alloc, WrittenDecl::Enum { name, cases }, fault, values)
}

/// Puts a field in front of the others; `deinit` and `init()` are none.
#[tactic(auto, unfolding(sil_grammar_values::specs::Values::field_before))]
fn field_before(
    value: Value,
    mut others: Prepended<WrittenField>,
) -> Result<Prepended<WrittenField>, Exhausted>
    ensures { IfOk result (λ fields. fields ≡ field_before value others) }
{
    match value {
        Value::Field(field) => others.push_front(field.into_inner())?,
        other => discard(other),
    }
    Ok(others)
}

/// Puts a member, and the fields behind it.
#[inline(never)]
pub(crate) fn fields(alloc: Global, values: &mut Prepended<Value>) -> Result<(), Exhausted>
    requires { 2 ≤ length values.old }
    ensures values { OnOk result ((first others : Value) × (rest : List Value) × (values.old ≡ first ∷ others ∷ rest)
        × (values.new ≡ v.Fields (field_before first (fields_of others)) ∷ rest)) }
{
    let member = values.pop_front();
    let others = values.pop_front().into_fields(alloc);
    let fields = field_before(member, others)?;
    put_value(Value::Fields(fields), values)
}

/// Puts that there are no fields, or no more of them.
#[inline(never)]
pub(crate) fn no_fields(alloc: Global, values: &mut Prepended<Value>) -> Result<(), Exhausted>
    ensures values { OnOk result (values.new ≡ v.Fields [] ∷ values.old) }
{
    put_value(Value::Fields(Prepended::new(alloc)), values)
}

/// Puts the field of `weak var f: T`, or of `unowned var f: T`.
#[inline(never)]
pub(crate) fn variable(
    alloc: Global,
    storage: Storage,
    values: &mut Prepended<Value>,
) -> Result<(), Exhausted>
    requires { 2 ≤ length values.old }
    ensures values { OnOk result ((word field : Value) × (rest : List Value) × (values.old ≡ word ∷ field ∷ rest)
        × (values.new ≡ v.Field (record (field_of field) { storage = storage }) ∷ rest)) }
{
    skip(values);
    let field = values.pop_front().into_field();
    let field = WrittenField {
        name: field.name,
        storage,
        ty: field.ty,
    };
    let field = Boxed::new(alloc, field)?;
    put_value(Value::Field(field), values)
}

/// Puts the field of `var f: T`, or of `let f: T`.
#[inline(never)]
pub(crate) fn binding(alloc: Global, values: &mut Prepended<Value>) -> Result<(), Exhausted>
    requires { 5 ≤ length values.old }
    ensures values { OnOk result ((a b c d e : Value) × (rest : List Value) × (values.old ≡ a ∷ b ∷ c ∷ d ∷ e ∷ rest)
        × (values.new ≡ meant.binding (a ∷ b ∷ c ∷ d ∷ e ∷ []) ∷ rest)) }
{
    skip(values);
    let name = values.pop_front().into_token();
    skip(values);
    let ty = values.pop_front().into_type().ty;
    skip(values);
    let field = WrittenField {
        name,
        storage: Storage::Strong,
        ty,
    };
    let field = Boxed::new(alloc, field)?;
    put_value(Value::Field(field), values)
}

/// Puts a case, and the cases behind it.
#[inline(never)]
#[tactic(auto, unfolding(sil_grammar_values::specs::inner::Reduced::standing))]
pub(crate) fn more_cases(alloc: Global, values: &mut Prepended<Value>) -> Result<(), Exhausted>
    requires { 4 ≤ length values.old }
    ensures values { OnOk result (values.new ≡ reduced Production.CasesMore values.old) }
{
    skip(values);
    let name = values.pop_front().into_token();
    let payload = values.pop_front().into_payload();
    let mut cases = values.pop_front().into_cases(alloc);
    cases.push_front(WrittenCase { name, payload })?;
    put_value(Value::Cases(cases), values)
}

/// Puts that there are no cases, or no more of them.
#[inline(never)]
pub(crate) fn no_cases(alloc: Global, values: &mut Prepended<Value>) -> Result<(), Exhausted>
    ensures values { OnOk result (values.new ≡ v.Cases [] ∷ values.old) }
{
    put_value(Value::Cases(Prepended::new(alloc)), values)
}
