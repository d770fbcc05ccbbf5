//! Which copies of a function can become borrows: of all copies at once, by one search of the walks, or of one.
//! Which can is defined in `copy_pairing_model` (`IsBorrowable`). It knows of no module, and rewrites nothing.
mod answers;
mod consumers;
mod copies;
mod held;
mod lending;
mod together;
mod watched;

pub use answers::{Answer, all_answers, answer_to, forget};
pub use copies::{Copied, copy_at, is_destroyed_at};
pub use held::are_free_at;
pub use lending::is_borrowable;
pub use watched::{is_among, is_mark};
