//! The types that a module declares.

use crate::exhausted::Exhausted;
use crate::list::List;
use crate::text::Text;
use crate::try_clone::TryClone;
use crate::type_name::TypeName;
use std::alloc::Global;

/// A declared type: `struct Pair { .. }`, `enum Answer { .. }` or `class Leaf : Node { .. }`, with its own members in order.
#[derive(Drop)]
pub enum Decl {
    Struct {
        name: Text,
        fields: List<Field>,
    },
    Enum {
        name: Text,
        cases: List<Case>,
    },
    Class {
        name: Text,
        superclass: Option<Text>,
        fields: List<Field>,
    },
}

/// A field of a struct or class: `var left: Node`, `weak var parent: Optional<Node>`.
/// The type is the one behind the colon, whatever the storage.
#[derive(Drop)]
pub struct Field {
    pub name: Text,
    pub storage: Storage,
    pub ty: TypeName,
}

/// How a field holds its value: plainly, `weak` or `unowned`.
#[derive(Clone, Copy, Debug, PartialEq, Eq)]
pub enum Storage {
    Strong,
    Weak,
    Unowned,
}

/// A case of an enum: `case none`, or `case some(T)`. A payload of several types is their tuple.
#[derive(Drop)]
pub struct Case {
    pub name: Text,
    pub payload: Option<TypeName>,
}

impl TryClone for Decl {
    fn try_clone(&self, alloc: Global) -> Result<Decl, Exhausted> {
        match self {
            Decl::Struct { name, fields } => Ok(Decl::Struct {
                name: name.try_clone(alloc)?,
                fields: fields.try_clone(alloc)?,
            }),
            Decl::Enum { name, cases } => Ok(Decl::Enum {
                name: name.try_clone(alloc)?,
                cases: cases.try_clone(alloc)?,
            }),
            Decl::Class {
                name,
                superclass,
                fields,
            } => Ok(Decl::Class {
                name: name.try_clone(alloc)?,
                superclass: superclass.try_clone(alloc)?,
                fields: fields.try_clone(alloc)?,
            }),
        }
    }
}

impl TryClone for Field {
    fn try_clone(&self, alloc: Global) -> Result<Field, Exhausted> {
        Ok(Field {
            name: self.name.try_clone(alloc)?,
            storage: self.storage,
            ty: self.ty.try_clone(alloc)?,
        })
    }
}

impl TryClone for Case {
    fn try_clone(&self, alloc: Global) -> Result<Case, Exhausted> {
        Ok(Case {
            name: self.name.try_clone(alloc)?,
            payload: self.payload.try_clone(alloc)?,
        })
    }
}
