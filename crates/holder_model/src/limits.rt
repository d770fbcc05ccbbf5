//! How much a run may have.

/// Frames at one time, that of the entry function counted.
pub const FRAMES: usize = 1024;
