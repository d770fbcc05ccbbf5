//! Parts of a text that are counted by one token each.

ghost use Rattle.std.specs.Prelude.{◌≡◌, map, slice_get};
ghost use Rattle.sil_ast.specs.declared.place.Place.{Place};
ghost use Rattle.sil_grammar_tree.specs.WrittenTree.Places as placed;

use crate::prepended::Prepended;
use sil_ast::Place;
use sil_grammar_tree::{
    InstBox, WrittenArg, WrittenBlock, WrittenCase, WrittenField, WrittenOperand, WrittenToken,
};

/// A part that is counted by one token.
pub trait Placed {
    ghost place: { Self → Place };

    fn place(&self) -> Place
        ensures { result ≡ place self.now };
}

impl Placed for WrittenToken {
    ghost place = { placed.token_place };

    fn place(&self) -> Place {
        self.place
    }
}

impl Placed for WrittenField {
    ghost place = { placed.field_place };

    fn place(&self) -> Place {
        self.name.place
    }
}

impl Placed for WrittenCase {
    ghost place = { placed.case_place };

    fn place(&self) -> Place {
        self.name.place
    }
}

impl Placed for WrittenArg {
    ghost place = { placed.arg_place };

    fn place(&self) -> Place {
        self.name.place
    }
}

impl Placed for WrittenOperand {
    ghost place = { placed.operand_place };

    fn place(&self) -> Place {
        self.name.place
    }
}

impl Placed for WrittenBlock {
    ghost place = { placed.label_place };

    fn place(&self) -> Place {
        self.label.place
    }
}

impl Placed for InstBox {
    ghost place = { placed.mnemonic_place };

    fn place(&self) -> Place {
        self.get().mnemonic
    }
}

/// The place of the part at an index.
pub fn place_of<T: Placed>(parts: &Prepended<T>, i: usize) -> Option<Place>
    ensures { result ≡ slice_get (map T.place parts.now) i }
{
    match parts.get(i) {
        Some(part) => Some(part.place()),
        None => None,
    }
}
