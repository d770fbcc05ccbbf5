//! Which declarations hold which, and what is measured on types: whether they are trivial, their leaves and their depth.
//! It knows of no rule and no limit but the two on types, just past which it counts no further.
mod gathered;
mod graph;
mod measure;
mod table;

pub use graph::containment;
pub use measure::{measure_name, measure_operands, measure_results, measure_type};
pub use table::measures;
