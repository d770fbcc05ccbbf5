//! Laws of all runs, be their modules accepted or not. It has no code that runs, and knows of no rule and no rewriting.
//! Of runs by holders: the ways that a step can take, what a state holds, which cells are full and which objects whole, and two
//! modules that run in lockstep.
//! Of runs of lowered code: the ways that a step can take, that stored numbers are the counts of holders, and that each
//! reference is stored or was released.
#![tactic(auto)]

mod lockstep_runs;
mod reference_totals;

pub use lockstep_runs::{outcomes_are_in_lockstep, rewritten_again};
pub use reference_totals::totals_are_left;
