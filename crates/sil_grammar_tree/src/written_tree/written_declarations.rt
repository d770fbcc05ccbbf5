//! Tokens that a module keeps, and declarations as a text writes them.

ghost use Rattle.std.specs.Prelude.{◌≡◌};
ghost use Rattle.sil_grammar_tree.specs.WrittenTree.Places as placed;

use crate::written_tree::spelling::Spelling;
use sil_ast::{List, Place, Storage, TypeName};

/// What a token says, and where it stands: a word, a name without its sigil, a text without its quotes, a number as it
/// is spelled. Of punctuation nothing is kept but its place.
#[derive(Drop)]
pub struct WrittenToken {
    pub text: Spelling,
    pub place: Place,
}

impl WrittenToken {
    /// Whether it is the word `ossa`, as an attribute.
    pub fn is_ossa(&self) -> bool
        ensures { result ≡ placed.is_ossa self.now }
    {
        self.text.as_slice() == b"ossa".as_slice()
    }
}

/// `class D : C { .. }`, `struct S { .. }` or `enum E { .. }`. Words that a module doesn't keep are gone.
#[derive(Drop)]
pub enum WrittenDecl {
    Class {
        name: WrittenToken,
        superclass: Option<WrittenToken>,
        fields: List<WrittenField>,
    },
    Struct {
        name: WrittenToken,
        fields: List<WrittenField>,
    },
    Enum {
        name: WrittenToken,
        cases: List<WrittenCase>,
    },
}

impl WrittenDecl {
    pub fn name(&self) -> &WrittenToken
        ensures { result.now ≡ placed.name_of_decl self.now }
    {
        match self {
            WrittenDecl::Class { name, .. } => name,
            WrittenDecl::Struct { name, .. } => name,
            WrittenDecl::Enum { name, .. } => name,
        }
    }
}

/// `weak var f: T`. `let` is read as `var`.
#[derive(Drop)]
pub struct WrittenField {
    pub name: WrittenToken,
    pub storage: Storage,
    pub ty: TypeName,
}

/// `case c`, or `case c(T)`. Several types are their tuple.
#[derive(Drop)]
pub struct WrittenCase {
    pub name: WrittenToken,
    pub payload: Option<TypeName>,
}
