//! Which modules keep the rules, and of one that doesn't the first refusal: the checks, in their order.
//! How a rule is decided, and how a refusal is written, isn't said here.
#![tactic(auto)]

mod checked;
mod lowered;
mod refusal;
mod reports;
mod types;
mod typing;
mod values;
mod verifier;

pub use checked::Checked;
pub use refusal::Refusal;
pub use verifier::{VerifyEnd, verify};
