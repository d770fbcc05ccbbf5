//! What the counting machine does, step by step, as functions of its state: definitions, with the types of what it keeps.
//! It has no machine: `count_machine` is one.
mod address;
mod frame;
mod run_end;

pub use address::{Address, Home, OpenSlot};
pub use frame::{Frame, Task};
pub use run_end::RunEnd;
