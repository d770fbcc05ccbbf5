//! Instructions of lowered code before their values have new numbers.

use instruction_table::Op;
use sil_ast::{Inst, Operand, Qualifier, Text, TypeName, ValueId};

/// An instruction of lowered code, in the old names of values. What it is made of stays in the module that is lowered.
#[derive(Clone, Copy)]
pub(crate) enum Draft<'a> {
    /// An instruction of the module, under this name and with this word.
    Kept {
        inst: &'a Inst,
        op: Op,
        qualifier: Qualifier,
    },
    /// A retain or a release.
    Counted {
        op: Op,
        value: ValueId,
        ty: Option<&'a TypeName>,
    },
    /// A load of what a place holds.
    Loaded {
        place: &'a Operand,
        result: ValueId,
    },
    /// The field of a struct.
    Field {
        whole: &'a Operand,
        owner: &'a Text,
        name: &'a Text,
        result: ValueId,
    },
    /// The element of a tuple with this number, from 0.
    Element {
        whole: &'a Operand,
        number: i64,
        result: ValueId,
    },
}
