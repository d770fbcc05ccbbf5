//! The functions of a module that a run can come to, and the classes whose deinitialisers are among them; where the values of
//! each such function stand in a frame, leaves and addresses side by side, and what is carried from one frame's places to
//! another's.
//! It knows of no instruction's row, and of no state of a run.
#![tactic(auto)]

mod frame_layouts;
mod reached_functions;

pub use frame_layouts::{Kept, Layout, Spot, addresses_carried, layouts_of, values_carried};
pub use reached_functions::{reached_from, ready_classes};
