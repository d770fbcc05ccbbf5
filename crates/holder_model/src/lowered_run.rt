//! What a run of lowered code is: the definition of the run by stored numbers, with the type of its faults. It has no engine.
mod laws;
mod low_fault;

pub use laws::lowered_runs_end_once;
pub use low_fault::LowFault;
