//! Which copies of a function can become borrows: of all copies at once, by one search of the walks, or of one. Copies are
//! rewritten in place, in a module or a function, as borrows and as moves.
//! Which can go is defined in `copy_pairing_model` (`IsBorrowable`), and which go isn't decided here.
#![tactic(auto)]

mod borrowable_copies;
mod copy_rewriting;

pub use borrowable_copies::{
    Answer, Copied, all_answers, answer_to, are_free_at, copy_at, forget, is_among, is_borrowable,
    is_destroyed_at, is_mark,
};
pub use copy_rewriting::{lend, move_copy};
