//! A module as its text writes it: what a derivation stands for, with names where a module has numbers, and the first
//! number out of range or token past a limit. It knows of no name that is defined elsewhere, and of no rule.
#![tactic(auto)]

mod building;
mod lacking;
mod leaves;
mod reduce;

pub use building::{Built, build, front_fault};
