//! Types, parameters and results with what the limits ask of them: where they begin and end, and how deep they are.

use crate::prepended::Prepended;
use sil_ast::{Given, Param, Place, TypeName};

/// A type as written. One that is deeper than 32 isn't kept: `()` stands in its place.
#[derive(Drop)]
pub struct WrittenType {
    pub ty: TypeName,
    /// How deep the type is as written, counted up to 33.
    pub depth: u32,
    /// Where its first token stands.
    pub first: Place,
    /// Where its last token stands.
    pub last: Place,
}

/// Types with a comma between two.
#[derive(Drop)]
pub struct TypeList {
    pub types: Prepended<TypeName>,
    /// Where each of them begins.
    pub firsts: Prepended<Place>,
    /// The depth of the deepest, and 0 where there is none.
    pub depth: u32,
}

/// Parameters with a comma between two.
#[derive(Drop)]
pub struct ParamList {
    pub params: Prepended<Param>,
    /// Where each of them begins.
    pub firsts: Prepended<Place>,
}

/// Results with a comma between two.
#[derive(Drop)]
pub struct GivenList {
    pub givens: Prepended<Given>,
    /// Where each of them begins.
    pub firsts: Prepended<Place>,
}
