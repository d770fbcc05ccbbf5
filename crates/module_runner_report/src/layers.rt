//! The outermost layer of a type, which says how its values are written.

ghost use Rattle.std.specs.Prelude.{◌≡◌, List, option_map, slice_get};
ghost use Rattle.std.specs.Option.{option_copied};
ghost use Rattle.holder_model.specs.declared.left_object.LeftObject.{LeftObject};
ghost use Rattle.holder_model_values.specs.RunValues.Values.{Value};
ghost use Rattle.sil_ast.specs.declared.type_name.TypeName.TheVariants as type_of;
ghost use Rattle.module_runner_report.specs.inner.Layers.{case_told, cases_in, declared_cases, optional_cases, types_in};
ghost use Rattle.module_runner_report.specs.inner.Texts.{AreOfRunnable, layer_text, text_of};

use sil_ast::{Case, Decl, Field, Text, TypeName};
use sil_types::TypeTable;

/// What the values of a type are, with the types of their parts.
#[derive(Clone, Copy)]
pub(crate) enum TypeLayer<'a> {
    Integer,
    Reference,
    /// A struct, or a tuple, whose name is empty.
    Group {
        name: &'a [u8],
        types: MemberTypes<'a>,
    },
    Enum {
        name: &'a [u8],
        cases: CaseTypes<'a>,
    },
    /// An address, or a name that isn't declared.
    Unknown,
}

/// The types of the members of a struct or a tuple.
#[derive(Clone, Copy)]
pub(crate) enum MemberTypes<'a> {
    Fields(&'a [Field]),
    Elements(&'a [TypeName]),
}

/// The cases of an enum, or of an Optional of a type.
#[derive(Clone, Copy)]
pub(crate) enum CaseTypes<'a> {
    Declared(&'a [Case]),
    Optional(&'a TypeName),
}

/// A case of an enum, with the type of its payload if it has one.
#[derive(Clone, Copy)]
pub(crate) struct CaseType<'a> {
    pub(crate) name: &'a [u8],
    pub(crate) payload: Option<&'a TypeName>,
}

/// The outermost layer of a type, through its declaration where it is a name. That of storage is the layer of what is stored.
pub(crate) fn layer_of<'a>(table: &'a TypeTable, ty: &'a TypeName) -> TypeLayer<'a>
    requires { AreOfRunnable table.now }
    ensures { (left : List LeftObject) (v : Value) → text_of table.now left ty.now v ≡ layer_text table.now left result v }
{
    match ty {
        TypeName::Int(_) => TypeLayer::Integer,
        TypeName::Named(name) => declared_layer(table, name),
        TypeName::Optional(target) => TypeLayer::Enum {
            name: b"Optional",
            cases: CaseTypes::Optional(target.get()),
        },
        TypeName::Tuple(elements) => TypeLayer::Group {
            name: b"",
            types: MemberTypes::Elements(elements.get().as_slice()),
        },
        TypeName::Weak(stored) => layer_of(table, stored.get()),
        TypeName::Unowned(stored) => layer_of(table, stored.get()),
        TypeName::Address(_) => TypeLayer::Unknown,
    }
}

/// The layer of a declared type.
fn declared_layer<'a>(table: &'a TypeTable, name: &Text) -> TypeLayer<'a>
    requires { AreOfRunnable table.now }
    ensures { (left : List LeftObject) (v : Value) → text_of table.now left (type_of.Named name.now) v ≡ layer_text table.now left result v }
{
    match table.decl(name) {
        Some(Decl::Struct { name, fields }) => TypeLayer::Group {
            name: name.as_slice(),
            types: MemberTypes::Fields(fields.as_slice()),
        },
        Some(Decl::Enum { name, cases }) => TypeLayer::Enum {
            name: name.as_slice(),
            cases: CaseTypes::Declared(cases.as_slice()),
        },
        Some(Decl::Class { .. }) => TypeLayer::Reference,
        None => TypeLayer::Unknown,
    }
}

impl<'a> MemberTypes<'a> {
    /// The type of the i-th member.
    pub(crate) fn get(&self, i: usize) -> Option<&'a TypeName>
        ensures { option_copied result ≡ slice_get (types_in self.now) i }
    {
        match self {
            MemberTypes::Fields(fields) => match fields.get(i) {
                Some(field) => Some(&field.ty),
                None => None,
            },
            MemberTypes::Elements(elements) => elements.get(i),
        }
    }
}

impl<'a> CaseTypes<'a> {
    /// The case with this place, from 0.
    pub(crate) fn get(&self, index: u32) -> Option<CaseType<'a>>
        ensures { option_map case_told result ≡ slice_get (cases_in self.now) index }
    {
        match self {
            CaseTypes::Declared(cases) => declared_case(cases, index),
            CaseTypes::Optional(target) => optional_case(target, index),
        }
    }
}

fn declared_case(cases: &[Case], index: u32) -> Option<CaseType<'_>>
    ensures { option_map case_told result ≡ slice_get (declared_cases cases.now) index }
{
    match cases.get(index as usize) {
        Some(case) => Some(CaseType {
            name: case.name.as_slice(),
            payload: case.payload.as_ref(),
        }),
        None => None,
    }
}

fn optional_case(target: &TypeName, index: u32) -> Option<CaseType<'_>>
    ensures { option_map case_told result ≡ slice_get (optional_cases target.now) index }
{
    match index {
        0 => Some(CaseType {
            name: b"none",
            payload: None,
        }),
        1 => Some(CaseType {
            name: b"some",
            payload: Some(target),
        }),
        _ => None,
    }
}
