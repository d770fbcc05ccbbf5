//! Instructions that stay in lowered code, and alone.

ghost use Rattle.std.specs.Prelude.{◌≡◌, ◌∷◌, [], IfSome};
ghost use Rattle.ownership_lowering_model.specs.LoweredInsts as insts;
ghost use Rattle.ownership_lowering_model.specs.Numbers as renumbered;
ghost use Rattle.sil_ast.specs.declared.place.ValueId.{ValueId};
ghost use Rattle.sil_types_declarations.specs.TypeDefinitions.Declarations.{Declarations};
ghost use Rattle.ownership_lowering_functions.specs.ValueRenumbering.inner.NewNumbers.{number_in};

use crate::function_lowering::drafting::lowering_of;
use crate::value_renumbering::{NewNumbers, renumber_inst};
use instruction_table::Op;
use ownership_lowering_model::Lowering;
use sil_ast::{Inst, Qualifier};

/// The name and the word that an instruction has in lowered code, where it stays alone.
#[derive(Clone, Copy)]
pub(crate) struct Kept {
    pub op: Op,
    pub qualifier: Qualifier,
}

impl Kept {
    /// Writes them into the instruction, with new numbers.
    pub fn write(self, numbers: &NewNumbers, inst: &mut Inst)
        ensures { inst.new ≡ renumbered.renumbered_inst (number_in numbers.now) (record inst.old { op = self.op; qualifier = self.qualifier }) }
    {
        inst.op = self.op;
        inst.qualifier = self.qualifier;
        renumber_inst(numbers, inst);
    }
}

/// One without a word.
fn plain(op: Op) -> Option<Kept>
    ensures { IfSome result (λ kept. kept ≡ record { op = op; qualifier = Qualifier.Plain }) }
{
    Some(Kept {
        op,
        qualifier: Qualifier::Plain,
    })
}

/// What stays of an instruction alone, if it is all that this becomes. A `load [copy]` and a `store [assign]` become more.
pub(crate) fn kept_alone(inst: &Inst) -> Option<Kept>
    ensures { IfSome result (λ kept. (d : Declarations) (spare : ValueId)
        → insts.becomes d spare inst.now ≡ record inst.now { op = kept.op; qualifier = kept.qualifier } ∷ []) }
{
    match (lowering_of(inst.op), inst.qualifier) {
        (Lowering::Stays, qualifier) => Some(Kept {
            op: inst.op,
            qualifier,
        }),
        (Lowering::Loads, Qualifier::Copy) | (Lowering::Stores, Qualifier::Assign) => None,
        (Lowering::Loads, _) => plain(Op::Load),
        (Lowering::Stores, _) => plain(inst.op),
        _ => None,
    }
}
