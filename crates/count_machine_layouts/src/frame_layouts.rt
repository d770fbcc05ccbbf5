//! Where the values of each function stand in a frame, leaves and addresses side by side, and what is carried from one frame's places to
//! another's. It knows of no instruction and of no state of a run.
mod carried;
mod kept;
mod layout;
mod layouts;
mod sizes;

pub use carried::{addresses_carried, values_carried};
pub use layout::{Kept, Layout, Spot};
pub use layouts::layouts_of;
