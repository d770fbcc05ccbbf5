//! Definitions, with the types of what is kept: code that is made ready to run, by numbers that were found once, and what the
//! counting machine does, step by step, as functions of its state.
//! It has no machine: `count_machine` is one.
#![tactic(auto)]

mod machine_steps;
mod ready_code;

pub use machine_steps::{Address, Frame, Home, OpenSlot, RunEnd, Task};
pub use ready_code::{
    Carry, CarryAddress, Local, LocalAddress, ReadyBlock, ReadyCase, ReadyClass, ReadyEdge,
    ReadyEnd, ReadyFunction, ReadyModule, ReadyOp,
};
