//! The signatures of functions.

use crate::exhausted::Exhausted;
use crate::list::List;
use crate::try_clone::TryClone;
use crate::type_name::TypeName;
use std::alloc::Global;

/// What a function takes and gives: `@convention(thin) (@owned Node, Int) -> @owned Node`.
#[derive(Drop)]
pub struct Signature {
    pub convention: Convention,
    pub params: List<Param>,
    pub results: List<Given>,
}

/// `@convention(thin)` or `@convention(method)`.
#[derive(Clone, Copy, Debug, PartialEq, Eq)]
pub enum Convention {
    Thin,
    Method,
}

/// A parameter: `@guaranteed Node`.
#[derive(Drop)]
pub struct Param {
    pub passing: Passing,
    pub ty: TypeName,
}

/// How a parameter is passed: plainly, `@owned` or `@guaranteed`; or in a place, `@inout`, `@in` or `@in_guaranteed`.
#[derive(Clone, Copy, Debug, PartialEq, Eq)]
pub enum Passing {
    Plain,
    Owned,
    Guaranteed,
    Inout,
    In,
    InGuaranteed,
}

/// A result: `Int`, `@owned Node`, or `@out Node`, which is put in a place of the caller's. At most one of the two words is set.
#[derive(Drop)]
pub struct Given {
    pub owned: bool,
    pub out: bool,
    pub ty: TypeName,
}

impl TryClone for Signature {
    fn try_clone(&self, alloc: Global) -> Result<Signature, Exhausted> {
        Ok(Signature {
            convention: self.convention,
            params: self.params.try_clone(alloc)?,
            results: self.results.try_clone(alloc)?,
        })
    }
}

impl TryClone for Param {
    fn try_clone(&self, alloc: Global) -> Result<Param, Exhausted> {
        Ok(Param {
            passing: self.passing,
            ty: self.ty.try_clone(alloc)?,
        })
    }
}

impl TryClone for Given {
    fn try_clone(&self, alloc: Global) -> Result<Given, Exhausted> {
        Ok(Given {
            owned: self.owned,
            out: self.out,
            ty: self.ty.try_clone(alloc)?,
        })
    }
}
