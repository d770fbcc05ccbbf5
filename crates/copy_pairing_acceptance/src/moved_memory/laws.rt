//! The law of memory of moved functions, on a call that does nothing. The lemmas behind it are in `proofs/`.

ghost use Rattle.copy_pairing_acceptance.specs.MovedMemory.inner.Laws.{MovedMemoryIsClean};

/// Where a copy of an accepted function becomes a move, no rule on memory is broken: 601 to 611.
pub fn moved_memory_is_clean()
    ensures { MovedMemoryIsClean }
{}
