//! What values are in a run, and how they lie in memory: cells, places, leaves. Definitions, with the few types that they need.
//! It knows of no instruction, no frame and no object's count.
mod leaf;
mod phase;
mod value;

pub use leaf::Leaf;
pub use phase::Phase;
pub use value::Val;
