//! Deinitialisation.

ghost use Rattle.std.specs.Prelude.{◌≡◌};
ghost use Rattle.holder_model_values.specs.declared.run_values.phase.Phase.TheVariants.{Deiniting, Live};
ghost use Rattle.count_heap.specs.HeapModel.HeapCalls.{finished, started};
ghost use Rattle.count_heap.specs.HeapModel.HeapViews.{phase_in, strong_in};

use crate::heap::Heap;
use holder_model_values::Phase;
use sil_ast::ObjectId;

impl Heap {
    /// The deinitialisation of an object starts.
    #[inline]
    pub fn start(&mut self, o: ObjectId)
        requires live { phase_in self.old o ≡ Live }
        requires count { strong_in self.old o ≡ 0 }
        ensures { self.new ≡ started self.old o }
    {
        let record = &mut self.records[self.numbers.slot_of(o.0)];
        record.phase = Phase::Deiniting;
    }

    /// An object dies. It is freed, unless a weak or unowned place names it.
    pub fn finish(&mut self, o: ObjectId)
        requires deiniting { phase_in self.old o ≡ Deiniting }
        requires count { strong_in self.old o ≡ 0 }
        ensures { self.new ≡ finished self.old o }
    {
        let slot = self.numbers.slot_of(o.0);
        let record = &mut self.records[slot];
        record.phase = Phase::Dead;
        let piece = record.piece;
        self.pool.give_back(piece);
        self.sides.mark(slot);
        if self.sides.is_idle(slot) {
            self.numbers.take_out(o.0);
        }
    }
}
