//! Strong references.

ghost use Rattle.std.specs.Prelude.{◌≡◌, ◌<◌, ◌≤◌, ◌^◌, false};
ghost use Rattle.count_heap.specs.HeapModel.HeapCalls.{release_answer, release_tried, released, retained, try_answer};
ghost use Rattle.count_heap.specs.HeapModel.HeapViews.{is_dead_in, strong_in};
ghost use Rattle.count_heap.specs.inner.Answers.{left_answer};

use crate::heap::Heap;
use crate::heap_model::{Released, Underflow};
use crate::slot_record::SlotRecord;
use holder_model_values::Phase;
use sil_ast::ObjectId;

/// What a release answers that left this.
#[inline]
fn answer_of(left: SlotRecord) -> Released
    ensures { result ≡ left_answer left.phase left.strong }
{
    match left.phase {
        Phase::Live => {
            if left.strong == 0 {
                Released::LastGone
            } else {
                Released::Held
            }
        }
        Phase::Deiniting | Phase::Dead => Released::Held,
    }
}

impl Heap {
    /// One strong reference more.
    #[inline]
    pub fn retain(&mut self, o: ObjectId)
        requires alive { is_dead_in self.old o ≡ false }
        requires count { strong_in self.old o < 2 ^ 63 }
        requires total { self.old.retains < 2 ^ 63 }
        ensures { self.new ≡ retained self.old o }
    {
        let record = &mut self.records[self.numbers.slot_of(o.0)];
        record.strong += 1;
        self.retains += 1;
    }

    /// One strong reference less.
    #[inline]
    pub fn release(&mut self, o: ObjectId) -> Released
        requires alive { is_dead_in self.old o ≡ false }
        requires count { 1 ≤ strong_in self.old o }
        requires total { self.old.releases < 2 ^ 63 }
        ensures answer { result ≡ release_answer self.old o }
        ensures heap { self.new ≡ released self.old o }
    {
        let record = &mut self.records[self.numbers.slot_of(o.0)];
        record.strong -= 1;
        let left = *record;
        self.releases += 1;
        answer_of(left)
    }

    /// One strong reference less, where there is one. A release of an object without one changes nothing.
    #[inline]
    pub fn try_release(&mut self, o: ObjectId) -> Result<Released, Underflow>
        requires alive { is_dead_in self.old o ≡ false }
        requires total { self.old.releases < 2 ^ 63 }
        ensures answer { result ≡ try_answer self.old o }
        ensures heap { self.new ≡ release_tried self.old o }
    {
        let record = &mut self.records[self.numbers.slot_of(o.0)];
        if record.strong == 0 {
            return Err(Underflow { count: 0 });
        }
        record.strong -= 1;
        let left = *record;
        self.releases += 1;
        Ok(answer_of(left))
    }
}
