//! What comes next in a list of classes: a token or the end, with its number.

ghost use Rattle.std.specs.Prelude.{◌≡◌, Some, None};
ghost use Rattle.sil_grammar_shape.specs.inner.ClassNumbers.{class_number};
ghost use Rattle.sil_grammar_shape.specs.inner.ParseTable.{look_number};

use crate::class_numbers::class_number;
use sil_grammar_classes::Class;

/// The class of a token, with its number: it's compared with many others.
#[derive(Clone, Copy)]
pub(crate) struct NumberedClass {
    pub class: Class,
    pub number: u16,
    ghost numbered: { number ≡ class_number class },
}

impl NumberedClass {
    pub fn new(class: Class) -> NumberedClass
        ensures { result.class ≡ class }
    {
        NumberedClass {
            class,
            number: class_number(class),
        }
    }
}

/// The class of the next token, or none at the end. Its number is its row in the parse table.
#[derive(Clone, Copy)]
pub(crate) struct Lookahead {
    pub class: Option<Class>,
    pub number: usize,
    ghost numbered: { number ≡ look_number class },
}

impl Lookahead {
    /// A token of this class comes next.
    #[tactic(auto, unfolding(crate::specs::inner::ParseTable::look_number))]
    pub fn token(token: NumberedClass) -> Lookahead
        ensures { result.class ≡ Some token.class }
    {
        Lookahead {
            class: Some(token.class),
            number: token.number as usize,
        }
    }

    /// The end comes next.
    #[tactic(auto, unfolding(crate::specs::inner::ParseTable::look_number))]
    pub fn end() -> Lookahead
        ensures { result.class ≡ None }
    {
        Lookahead {
            class: None,
            number: 0,
        }
    }
}
