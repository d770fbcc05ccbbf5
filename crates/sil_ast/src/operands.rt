//! The operands of an instruction, of which most have one.

use crate::exhausted::Exhausted;
use crate::place::ValueId;
use crate::short_list::ShortList;
use crate::try_clone::TryClone;
use crate::type_name::TypeName;
use std::alloc::Global;

/// A use of a value: `%a : $T` with the type as written, or a bare `%a`.
#[derive(Default, Drop)]
pub struct Operand {
    pub value: ValueId,
    pub ty: Option<TypeName>,
}

/// The operands of an instruction. A single one takes no memory of its own.
pub type Operands = ShortList<Operand, 1>;

impl TryClone for Operand {
    fn try_clone(&self, alloc: Global) -> Result<Operand, Exhausted> {
        Ok(Operand {
            value: self.value,
            ty: self.ty.try_clone(alloc)?,
        })
    }
}
