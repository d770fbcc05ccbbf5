//! The laws of heaps, each on a call that does nothing. The lemmas behind them are in `proofs/`.

ghost use Rattle.count_heap.specs.inner.Laws.{ClassesAreSmall, FieldsAreInLimits, FinishedAreDead, FreedAreDead, SlotsAreFew};

/// A freed object is dead, and nothing names it.
pub fn freed_objects_are_dead()
    ensures { FreedAreDead }
{}

/// A finished object is dead, and it is freed just where nothing names it.
pub fn finished_objects_are_dead()
    ensures { FinishedAreDead }
{}

/// After any calls there are no more slots than objects were unfreed at one time.
pub fn slots_are_few()
    ensures { SlotsAreFew }
{}

/// The fields of a module within the limits are in theirs, and then no class is too large to be laid out.
pub fn no_class_is_too_large()
    ensures fields { FieldsAreInLimits }
    ensures classes { ClassesAreSmall }
{}
