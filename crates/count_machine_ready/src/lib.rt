//! Makes a lowered module ready to run: of the functions that a run can come to, what each instruction reads and writes in its function's
//! frame. It knows of no state of a run.
#![tactic(auto)]

mod body;
mod builtins;
mod calls;
mod edges;
mod ends;
mod functions;
mod members;
mod module;
mod ops;
mod parts;

pub use module::make_ready;
