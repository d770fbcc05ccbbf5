//! What a slot keeps of its object.

use holder_model_values::Phase;

/// What a slot keeps of its object, but for its side counts and its fields.
#[derive(Clone, Copy)]
pub(crate) struct SlotRecord {
    pub strong: u64,
    /// Where its leaves are, while it isn't dead.
    pub piece: usize,
    pub class: u32,
    pub phase: Phase,
}

/// Of a slot that no object had yet.
pub(crate) const NO_RECORD: SlotRecord = SlotRecord {
    strong: 0,
    piece: 0,
    class: 0,
    phase: Phase::Dead,
};
