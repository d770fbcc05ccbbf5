//! What values are in a run, and how they lie in memory: cells, places, leaves. Definitions, with the few types that they need.
//! Laws say how the parts of a value lie in its cells and in its leaves. It knows of no instruction, no frame and no object's
//! count.
#![tactic(auto)]

mod run_values;

pub use run_values::{Leaf, Phase, Val};
