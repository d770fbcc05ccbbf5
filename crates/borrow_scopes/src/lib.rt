//! Rules 501 to 505: on every walk each scope is used and ended only while it is open, it is not open where a base of what it lends ends,
//! it ends before the function returns, and it does not begin again before.
//! It knows marks, kinds, bases and borrows, and nothing of instructions but which one returns.
#![tactic(auto)]

mod borrowers;
mod borrows;
mod laws;
mod others;
mod scopes;

pub use borrows::check;
pub use laws::scopes_are_runs;
