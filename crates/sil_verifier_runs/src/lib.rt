//! Laws: no run by holders of an accepted module ends in a fault, and each state that it comes to is right. `Built`: which fields of new objects
//! are still to be written where a trail has come to, so that each step keeps objects right. `Guarded`: lent entries are guarded by what holds
//! the objects that they name, so an operand never names a dead one. `Loans`: what open scopes lend of places on the stack is kept. It has no
//! code that runs.
#![tactic(auto)]

mod laws;

pub use laws::{no_outcome_faults, no_run_faults};
