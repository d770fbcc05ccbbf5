//! Builds types, level by level.

ghost use Rattle.std.specs.Prelude.{◌≡◌, [], ◌∷◌, ◌≤◌, List, length, IfOk, OnOk};
ghost use Rattle.sil_grammar_tables.specs.declared.grammar.Production.{Production};
ghost use Rattle.sil_grammar_values.specs.inner.PartFaults.{part_fault};
ghost use Rattle.sil_grammar_values.specs.inner.Reduced.{parts_of, reduced};
ghost use Rattle.sil_ast.specs.declared.type_name.TypeName.TheVariants as ty;
ghost use Rattle.sil_grammar_values.specs.declared.value.Value.TheVariants as v;
ghost use Rattle.sil_grammar_values.specs.Types.{deeper, in_parens, kept, named_type, with_questions, one_deeper, one_token, tailed, type_before};
ghost use Rattle.sil_grammar_values.specs.declared.value.Value.{Value};
ghost use Rattle.sil_grammar_values.specs.Values.{no_types, token_of, type_of, types_of};

use crate::type_faults::{too_deep, too_many_questions, tuple_fault};
use sil_ast::{Boxed, Exhausted, Place, TypeName};
use sil_grammar_tables::Production;
use sil_grammar_tree::{Fault, WrittenToken, earlier};
use sil_grammar_values::nothing::{discard, no_types, unit_type};
use sil_grammar_values::prepended::Prepended;
use sil_grammar_values::put::{put, put_value};
use sil_grammar_values::value::{Reduced, Value};
use sil_grammar_values::written_types::{TypeList, WrittenType};
use sil_rules::limits;
use std::alloc::Global;

pub(crate) fn deeper(depth: u32) -> u32
    ensures { result ≡ deeper depth }
{
    if limits::DEPTH < depth {
        depth
    } else {
        depth + 1
    }
}

/// The type, where it isn't too deep.
fn kept(alloc: Global, depth: u32, ty: TypeName) -> Result<TypeName, Exhausted>
    ensures { IfOk result (λ made. made ≡ kept depth ty) }
{
    if limits::DEPTH < depth {
        unit_type(alloc)
    } else {
        Ok(ty)
    }
}

fn one_deeper(
    alloc: Global,
    depth: u32,
    ty: TypeName,
    first: Place,
    last: Place,
) -> Result<WrittenType, Exhausted>
    ensures { IfOk result (λ made. made ≡ one_deeper depth ty first last) }
{
    let depth = deeper(depth);
    Ok(WrittenType {
        ty: kept(alloc, depth, ty)?,
        depth,
        first,
        last,
    })
}

fn one_token(ty: TypeName, place: Place) -> WrittenType
    ensures { result ≡ one_token ty place }
{
    WrittenType {
        ty,
        depth: 1,
        first: place,
        last: place,
    }
}

/// A type with one `?` behind it.
fn optional(alloc: Global, inner: WrittenType, last: Place) -> Result<WrittenType, Exhausted>
    ensures { IfOk result (λ made. made ≡ one_deeper inner.depth (ty.Optional inner.ty) inner.first last) }
{
    let WrittenType {
        ty,
        depth,
        first,
        ..
    } = inner;
    let ty = TypeName::Optional(Boxed::new(alloc, ty)?);
    one_deeper(alloc, depth, ty, first, last)
}

/// A type with all the `?` behind it.
fn with_questions(
    alloc: Global,
    inner: WrittenType,
    questions: Prepended<Place>,
) -> Result<WrittenType, Exhausted>
    ensures { IfOk result (λ made. made ≡ with_questions inner questions) }
{
    let questions = questions.into_list();
    let mut ty = inner;
    for question in questions.as_slice() {
        ty = optional(alloc, ty, *question)?;
    }
    Ok(ty)
}

/// The types between two parentheses: one alone is that type, and others are a tuple.
fn in_parens(
    alloc: Global,
    first: Place,
    list: TypeList,
    last: Place,
) -> Result<WrittenType, Exhausted>
    ensures { IfOk result (λ made. made ≡ in_parens first list last) }
{
    let TypeList {
        mut types,
        depth,
        ..
    } = list;
    if types.len() == 1 {
        return Ok(WrittenType {
            ty: types.pop_front(),
            depth,
            first,
            last,
        });
    }
    let types = Boxed::new(alloc, types.into_list())?;
    one_deeper(alloc, depth, TypeName::Tuple(types), first, last)
}

fn type_before(ty: WrittenType, others: TypeList) -> Result<TypeList, Exhausted>
    ensures { IfOk result (λ list. list ≡ type_before ty others) }
{
    let TypeList {
        mut types,
        mut firsts,
        depth,
    } = others;
    types.push_front(ty.ty)?;
    firsts.push_front(ty.first)?;
    Ok(TypeList {
        types,
        firsts,
        depth: ty.depth.max(depth),
    })
}

fn named_type(alloc: Global, token: &WrittenToken) -> Result<WrittenType, Exhausted>
    ensures { IfOk result (λ ty. ty ≡ named_type token.now) }
{
    let name = token.text.to_text(alloc)?;
    Ok(one_token(TypeName::Named(name), token.place))
}

/// A word that names a type by itself, or begins a longer one.
#[tactic(auto, unfolding(sil_grammar_values::specs::Values::type_of, sil_grammar_values::specs::Types::tailed))]
fn tailed(alloc: Global, token: WrittenToken, tail: Value) -> Result<WrittenType, Exhausted>
    ensures { IfOk result (λ ty. ty ≡ tailed token tail) }
{
    match tail {
        Value::Type(ty) => Ok(WrittenType {
            ty: ty.ty,
            depth: ty.depth,
            first: token.place,
            last: ty.last,
        }),
        other => {
            discard(other);
            named_type(alloc, &token)
        }
    }
}

/// Puts the type between the parentheses of a case, a tuple where there are several.
#[inline(never)]
#[tactic(auto, unfolding(sil_grammar_values::specs::inner::Reduced::reducing))]
pub(crate) fn payload(
    alloc: Global,
    values: &mut Prepended<Value>,
) -> Result<Option<Fault>, Exhausted>
    requires { 4 ≤ length values.old }
    ensures values { OnOk result (values.new ≡ reduced Production.PayloadSome values.old) }
    ensures fault { IfOk result (λ fault. fault ≡ part_fault Production.PayloadSome (parts_of Production.PayloadSome values.old)) }
{
    let first = values.pop_front().into_token().place;
    let ty = values.pop_front().into_type();
    let others = values.pop_front().into_types(alloc);
    let last = values.pop_front().into_token().place;
    let list = type_before(ty, others)?;
    let fault = tuple_fault(&list, last);
    let value = Value::Type(in_parens(alloc, first, list, last)?);
    put(Reduced { value, fault }, values)
}

#[inline(never)]
#[tactic(auto, unfolding(sil_grammar_values::specs::inner::Reduced::reducing))]
pub(crate) fn paren_type(
    alloc: Global,
    values: &mut Prepended<Value>,
) -> Result<Option<Fault>, Exhausted>
    requires { 4 ≤ length values.old }
    ensures values { OnOk result (values.new ≡ reduced Production.ParenType values.old) }
    ensures fault { IfOk result (λ fault. fault ≡ part_fault Production.ParenType (parts_of Production.ParenType values.old)) }
{
    let first = values.pop_front().into_token().place;
    let types = values.pop_front().into_types(alloc);
    let last = values.pop_front().into_token().place;
    let questions = values.pop_front().into_questions(alloc);
    let fault = tuple_fault(&types, last);
    let inner = in_parens(alloc, first, types, last)?;
    let fault = earlier(fault, too_many_questions(inner.depth, &questions));
    let value = Value::Type(with_questions(alloc, inner, questions)?);
    put(Reduced { value, fault }, values)
}

#[inline(never)]
#[tactic(auto, unfolding(sil_grammar_values::specs::inner::Reduced::reducing))]
pub(crate) fn base_type(
    alloc: Global,
    values: &mut Prepended<Value>,
) -> Result<Option<Fault>, Exhausted>
    requires { 2 ≤ length values.old }
    ensures values { OnOk result (values.new ≡ reduced Production.BaseOpen values.old) }
    ensures fault { IfOk result (λ fault. fault ≡ part_fault Production.BaseOpen (parts_of Production.BaseOpen values.old)) }
{
    let base = values.pop_front().into_type();
    let questions = values.pop_front().into_questions(alloc);
    let fault = too_many_questions(base.depth, &questions);
    let value = Value::Type(with_questions(alloc, base, questions)?);
    put(Reduced { value, fault }, values)
}

#[inline(never)]
#[tactic(auto, unfolding(sil_grammar_values::specs::inner::Reduced::reducing))]
pub(crate) fn weak_type(
    alloc: Global,
    values: &mut Prepended<Value>,
) -> Result<Option<Fault>, Exhausted>
    requires { 2 ≤ length values.old }
    ensures values { OnOk result (values.new ≡ reduced Production.WeakOpen values.old) }
    ensures fault { IfOk result (λ fault. fault ≡ part_fault Production.WeakOpen (parts_of Production.WeakOpen values.old)) }
{
    let first = values.pop_front().into_token().place;
    let inner = values.pop_front().into_type();
    let fault = too_deep(inner.depth, inner.last);
    let ty = TypeName::Weak(Boxed::new(alloc, inner.ty)?);
    let value = Value::Type(one_deeper(alloc, inner.depth, ty, first, inner.last)?);
    put(Reduced { value, fault }, values)
}

#[inline(never)]
#[tactic(auto, unfolding(sil_grammar_values::specs::inner::Reduced::reducing))]
pub(crate) fn unowned_type(
    alloc: Global,
    values: &mut Prepended<Value>,
) -> Result<Option<Fault>, Exhausted>
    requires { 2 ≤ length values.old }
    ensures values { OnOk result (values.new ≡ reduced Production.UnownedOpen values.old) }
    ensures fault { IfOk result (λ fault. fault ≡ part_fault Production.UnownedOpen (parts_of Production.UnownedOpen values.old)) }
{
    let first = values.pop_front().into_token().place;
    let inner = values.pop_front().into_type();
    let fault = too_deep(inner.depth, inner.last);
    let ty = TypeName::Unowned(Boxed::new(alloc, inner.ty)?);
    let value = Value::Type(one_deeper(alloc, inner.depth, ty, first, inner.last)?);
    put(Reduced { value, fault }, values)
}

/// `Builtin` or `Optional`, and what stands behind it.
#[inline(never)]
pub(crate) fn tailed_base(alloc: Global, values: &mut Prepended<Value>) -> Result<(), Exhausted>
    requires { 2 ≤ length values.old }
    ensures values { OnOk result ((word tail : Value) × (rest : List Value)
        × (values.old ≡ word ∷ tail ∷ rest) × (values.new ≡ v.Type (tailed (token_of word) tail) ∷ rest)) }
{
    let word = values.pop_front().into_token();
    let ty = tailed(alloc, word, values.pop_front())?;
    put_value(Value::Type(ty), values)
}

#[inline(never)]
#[tactic(auto, unfolding(sil_grammar_values::specs::inner::Reduced::standing))]
pub(crate) fn named_base(alloc: Global, values: &mut Prepended<Value>) -> Result<(), Exhausted>
    requires { 1 ≤ length values.old }
    ensures values { OnOk result (values.new ≡ reduced Production.NamedBase values.old) }
{
    let word = values.pop_front().into_token();
    put_value(Value::Type(named_type(alloc, &word)?), values)
}

#[inline(never)]
#[tactic(auto, unfolding(sil_grammar_values::specs::inner::Reduced::reducing))]
pub(crate) fn optional_of(
    alloc: Global,
    values: &mut Prepended<Value>,
) -> Result<Option<Fault>, Exhausted>
    requires { 3 ≤ length values.old }
    ensures values { OnOk result (values.new ≡ reduced Production.OptionalOf values.old) }
    ensures fault { IfOk result (λ fault. fault ≡ part_fault Production.OptionalOf (parts_of Production.OptionalOf values.old)) }
{
    let first = values.pop_front().into_token().place;
    let inner = values.pop_front().into_type();
    let last = values.pop_front().into_token().place;
    let fault = too_deep(inner.depth, last);
    let ty = TypeName::Optional(Boxed::new(alloc, inner.ty)?);
    let value = Value::Type(one_deeper(alloc, inner.depth, ty, first, last)?);
    put(Reduced { value, fault }, values)
}

/// `Int64` behind `Builtin.`
#[inline(never)]
pub(crate) fn int_type(width: u8, values: &mut Prepended<Value>) -> Result<(), Exhausted>
    requires { 1 ≤ length values.old }
    ensures values { OnOk result ((word : Value) × (rest : List Value) × (values.old ≡ word ∷ rest)
        × (values.new ≡ v.Type (one_token (ty.Int width) (token_of word).place) ∷ rest)) }
{
    let place = values.pop_front().into_token().place;
    put_value(Value::Type(one_token(TypeName::Int(width), place)), values)
}

#[inline(never)]
#[tactic(auto, unfolding(sil_grammar_values::specs::inner::Reduced::standing))]
pub(crate) fn more_questions(alloc: Global, values: &mut Prepended<Value>) -> Result<(), Exhausted>
    requires { 2 ≤ length values.old }
    ensures values { OnOk result (values.new ≡ reduced Production.QuestionsMore values.old) }
{
    let question = values.pop_front().into_token().place;
    let mut questions = values.pop_front().into_questions(alloc);
    questions.push_front(question)?;
    put_value(Value::Questions(questions), values)
}

/// No `?`, or no more.
#[inline(never)]
pub(crate) fn no_questions(alloc: Global, values: &mut Prepended<Value>) -> Result<(), Exhausted>
    ensures values { OnOk result (values.new ≡ v.Questions [] ∷ values.old) }
{
    put_value(Value::Questions(Prepended::new(alloc)), values)
}

/// A type, and the types behind it.
#[inline(never)]
pub(crate) fn types_before(alloc: Global, values: &mut Prepended<Value>) -> Result<(), Exhausted>
    requires { 2 ≤ length values.old }
    ensures values { OnOk result ((first others : Value) × (rest : List Value) × (values.old ≡ first ∷ others ∷ rest)
        × (values.new ≡ v.Types (type_before (type_of first) (types_of others)) ∷ rest)) }
{
    let ty = values.pop_front().into_type();
    let others = values.pop_front().into_types(alloc);
    let types = type_before(ty, others)?;
    put_value(Value::Types(types), values)
}

/// No types, or no more.
#[inline(never)]
pub(crate) fn no_more_types(alloc: Global, values: &mut Prepended<Value>) -> Result<(), Exhausted>
    ensures values { OnOk result (values.new ≡ v.Types no_types ∷ values.old) }
{
    put_value(Value::Types(no_types(alloc)), values)
}
