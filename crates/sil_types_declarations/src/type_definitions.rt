//! What a module declares, which types it mentions, and what is measured on types. Definitions, with the few types that they need.
//! It decides nothing, and knows of no table.
mod kind;
mod measure;
mod standing;

pub use kind::Kind;
pub use measure::Measure;
pub use standing::Standing;
