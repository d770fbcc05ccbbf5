//! The law of memory where a copy becomes a borrow, on a call that does nothing. The lemmas behind it are in `proofs/`.

ghost use Rattle.copy_pairing_acceptance.specs.LentMemory.inner.Laws.{LentMemoryIsClean};

/// Where a copy that can become a borrow is one, no rule on memory is broken: its accesses are the same, but that an object is lent that was copied,
/// and all fields of that are written there.
pub fn lent_memory_is_clean()
    ensures { LentMemoryIsClean }
{}
