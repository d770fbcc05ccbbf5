//! Rules 401 to 404: on every walk each Owned value is used and ended only while it lives, it ends before the function returns,
//! and it does not begin again before.
//! It knows marks and kinds, and nothing of instructions but which one returns.
#![tactic(auto)]

mod laws;
mod lifetimes;
mod lives;

pub use laws::lives_are_runs;
pub use lifetimes::check;
