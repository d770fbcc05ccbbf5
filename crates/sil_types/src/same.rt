//! Whether two types, or two signatures, are the same.

ghost use Rattle.std.specs.Prelude.{◌≡◌, map};
ghost use Rattle.sil_ast.specs.declared.type_name.TypeName.TheVariants as type;
ghost use Rattle.sil_types.specs.Typing.Same as same;
ghost use Rattle.sil_types.specs.Typing.Same.{all_pairs, applied};

use sil_ast::{Convention, Given, Param, Passing, Signature, TypeName};

/// Whether the two types are the same. It takes no memory.
#[cycle(same)]
pub fn same_type(a: &TypeName, b: &TypeName) -> bool
    ensures { result ≡ same.is_same_type a.now b.now }
{
    match (a, b) {
        (TypeName::Int(x), TypeName::Int(y)) => *x == *y,
        (TypeName::Named(x), TypeName::Named(y)) => *x == *y,
        (TypeName::Optional(x), TypeName::Optional(y)) => same_type(x.get(), y.get()),
        (TypeName::Tuple(x), TypeName::Tuple(y)) => same_types(
            x.get().as_slice(),
            y.get().as_slice(),
        ),
        (TypeName::Weak(x), TypeName::Weak(y)) => same_type(x.get(), y.get()),
        (TypeName::Unowned(x), TypeName::Unowned(y)) => same_type(x.get(), y.get()),
        (TypeName::Address(x), TypeName::Address(y)) => same_type(x.get(), y.get()),
        _ => false,
    }
}

/// Whether the two lists of types are the same.
#[cycle(same)]
pub fn same_types(a: &[TypeName], b: &[TypeName]) -> bool
    ensures pairs { result ≡ same.are_same_types a.now b.now }
    ensures applied { result ≡ all_pairs applied (map same.is_same_type a.now) b.now }
{
    if a.len() != b.len() {
        return false;
    }
    for i in 0..a.len() {
        if !same_type(&a[i], &b[i]) {
            return false;
        }
    }
    true
}

/// Whether a type is weak storage of another one.
pub fn is_weak_of(ty: &TypeName, inner: &TypeName) -> bool
    ensures { result ≡ same.is_same_type ty.now (type.Weak inner.now) }
{
    match ty {
        TypeName::Weak(own) => same_type(own.get(), inner),
        _ => false,
    }
}

/// Whether a type is unowned storage of another one.
pub fn is_unowned_of(ty: &TypeName, inner: &TypeName) -> bool
    ensures { result ≡ same.is_same_type ty.now (type.Unowned inner.now) }
{
    match ty {
        TypeName::Unowned(own) => same_type(own.get(), inner),
        _ => false,
    }
}

fn same_convention(a: Convention, b: Convention) -> bool
    ensures { result ≡ same.is_same_convention a b }
{
    a == b
}

fn same_passing(a: Passing, b: Passing) -> bool
    ensures { result ≡ same.is_same_passing a b }
{
    a == b
}

fn same_param(a: &Param, b: &Param) -> bool
    ensures { result ≡ same.is_same_param a.now b.now }
{
    same_passing(a.passing, b.passing) && same_type(&a.ty, &b.ty)
}

fn same_flag(a: bool, b: bool) -> bool
    ensures { result ≡ same.is_same_flag a b }
{
    a == b
}

fn same_given(a: &Given, b: &Given) -> bool
    ensures { result ≡ same.is_same_given a.now b.now }
{
    same_flag(a.owned, b.owned) && same_flag(a.out, b.out) && same_type(&a.ty, &b.ty)
}

fn same_params(a: &[Param], b: &[Param]) -> bool
    ensures { result ≡ all_pairs same.is_same_param a.now b.now }
{
    if a.len() != b.len() {
        return false;
    }
    for i in 0..a.len() {
        if !same_param(&a[i], &b[i]) {
            return false;
        }
    }
    true
}

fn same_results(a: &[Given], b: &[Given]) -> bool
    ensures { result ≡ all_pairs same.is_same_given a.now b.now }
{
    if a.len() != b.len() {
        return false;
    }
    for i in 0..a.len() {
        if !same_given(&a[i], &b[i]) {
            return false;
        }
    }
    true
}

/// Whether the two signatures are the same, word for word. It takes no memory.
pub fn same_signature(a: &Signature, b: &Signature) -> bool
    ensures { result ≡ same.is_same_signature a.now b.now }
{
    same_convention(a.convention, b.convention)
        && same_params(a.params.as_slice(), b.params.as_slice())
        && same_results(a.results.as_slice(), b.results.as_slice())
}
