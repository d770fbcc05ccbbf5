//! Laws: runs by holders of two modules in lockstep, as those of a module and of what it is rewritten to. It has no code that runs. It knows of no
//! rewriting: what frames do in the two modules is a premise of the theorem in `proofs/AsTheyDid.antt`.
mod laws;

pub use laws::{outcomes_are_in_lockstep, rewritten_again};
