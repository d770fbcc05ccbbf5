//! Types as a text writes them. Whether a name is declared, and what it holds, is for the layers above.

ghost use Rattle.std.specs.Prelude.{◌≡◌, ◌↔◌, IfOk, IsTrue, map, min};
ghost use Rattle.sil_ast.specs.TypeName.{depth_of, largest};

use crate::boxed::Boxed;
use crate::exhausted::Exhausted;
use crate::list::List;
use crate::same::Same;
use crate::text::Text;
use crate::try_clone::TryClone;
use std::alloc::Global;

/// A type as written: `Builtin.Int64`, `Node`, `Optional<T>`, `(T, U)`, `@sil_weak T`, `@sil_unowned T`, and `*T` behind a `$`.
#[derive(Drop)]
pub enum TypeName {
    /// `Builtin.Int64`, by its width in bits.
    Int(u8),
    /// The name of a struct, enum or class.
    Named(Text),
    /// `Optional<T>`, or `T?`.
    Optional(Boxed<TypeName>),
    /// `(T, U)`, and `()` with no element.
    Tuple(Boxed<List<TypeName>>),
    /// `@sil_weak T`, a storage type.
    Weak(Boxed<TypeName>),
    /// `@sil_unowned T`, a storage type.
    Unowned(Boxed<TypeName>),
    /// `*T`, the address of a location that holds a `T`.
    Address(Boxed<TypeName>),
}

impl TypeName {
    /// How deep the type is as written, and `u32::MAX` where it is deeper than that.
    #[cycle(depth)]
    pub fn depth(&self) -> u32
        ensures { result ≡ min (depth_of self.now) u32.MAX }
    {
        match self {
            TypeName::Int(_) => 1,
            TypeName::Named(_) => 1,
            TypeName::Optional(target) => target.get().depth().saturating_add(1),
            TypeName::Tuple(elements) => deepest(elements.get().as_slice()).saturating_add(1),
            TypeName::Weak(target) => target.get().depth().saturating_add(1),
            TypeName::Unowned(target) => target.get().depth().saturating_add(1),
            TypeName::Address(target) => target.get().depth(),
        }
    }
}

#[cycle(depth)]
fn deepest(elements: &[TypeName]) -> u32
    ensures { result ≡ min (largest (map depth_of elements.now)) u32.MAX }
{
    let mut deepest = 0;
    for element in elements {
        deepest = element.depth().max(deepest);
    }
    deepest
}

impl TryClone for TypeName {
    fn try_clone(&self, alloc: Global) -> Result<TypeName, Exhausted> {
        copy(self, alloc)
    }
}

#[cycle(copy)]
fn copy(name: &TypeName, alloc: Global) -> Result<TypeName, Exhausted>
    ensures { IfOk result (λ copy. copy ≡ name.now) }
{
    match name {
        TypeName::Int(width) => Ok(TypeName::Int(*width)),
        TypeName::Named(name) => Ok(TypeName::Named(name.try_clone(alloc)?)),
        TypeName::Optional(target) => Ok(TypeName::Optional(copy_boxed(target, alloc)?)),
        TypeName::Tuple(elements) => Ok(TypeName::Tuple(copy_all(
            elements.get().as_slice(),
            alloc,
        )?)),
        TypeName::Weak(target) => Ok(TypeName::Weak(copy_boxed(target, alloc)?)),
        TypeName::Unowned(target) => Ok(TypeName::Unowned(copy_boxed(target, alloc)?)),
        TypeName::Address(target) => Ok(TypeName::Address(copy_boxed(target, alloc)?)),
    }
}

#[cycle(copy)]
fn copy_boxed(target: &Boxed<TypeName>, alloc: Global) -> Result<Boxed<TypeName>, Exhausted>
    ensures { IfOk result (λ copy. copy ≡ target.now) }
{
    Boxed::new(alloc, copy(target.get(), alloc)?)
}

#[cycle(copy)]
fn copy_all(elements: &[TypeName], alloc: Global) -> Result<Boxed<List<TypeName>>, Exhausted>
    ensures { IfOk result (λ copy. copy ≡ elements.now) }
{
    let mut copies = List::new(alloc);
    for element in elements {
        copies.push(copy(element, alloc)?)?;
    }
    Boxed::new(alloc, copies)
}

impl Same for TypeName {
    fn same(&self, other: &TypeName) -> bool {
        same_type(self, other)
    }
}

#[cycle(same)]
fn same_type(a: &TypeName, b: &TypeName) -> bool
    ensures { IsTrue result ↔ (a.now ≡ b.now) }
{
    match (a, b) {
        (TypeName::Int(x), TypeName::Int(y)) => *x == *y,
        (TypeName::Named(x), TypeName::Named(y)) => x.same(y),
        (TypeName::Optional(x), TypeName::Optional(y)) => same_type(x.get(), y.get()),
        (TypeName::Tuple(x), TypeName::Tuple(y)) => same_types(
            x.get().as_slice(),
            y.get().as_slice(),
        ),
        (TypeName::Weak(x), TypeName::Weak(y)) => same_type(x.get(), y.get()),
        (TypeName::Unowned(x), TypeName::Unowned(y)) => same_type(x.get(), y.get()),
        (TypeName::Address(x), TypeName::Address(y)) => same_type(x.get(), y.get()),
        _ => false,
    }
}

#[cycle(same)]
fn same_types(a: &[TypeName], b: &[TypeName]) -> bool
    ensures { IsTrue result ↔ (a.now ≡ b.now) }
{
    if a.len() != b.len() {
        return false;
    }
    for i in 0..a.len() {
        if !same_type(&a[i], &b[i]) {
            return false;
        }
    }
    true
}
