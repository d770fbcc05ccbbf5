//! Laws: a module stays verified where copies that can go are rewritten. It stays typed; a function in which a copy is a borrow
//! or a move keeps the rules on values and those on memory; and what the rewriting of one copy changes for the others is told.
//! It has no code that runs. It knows of no run, and not how it is decided which copies can go.
#![tactic(auto)]

mod lent_functions;
mod lent_memory;
mod moved_functions;
mod moved_memory;
mod rewriting_laws;
mod rewriting_order;
mod rewritten_typing_laws;

pub use lent_functions::lent_values_are_clean;
pub use lent_memory::lent_memory_is_clean;
pub use moved_functions::moved_values_are_clean;
pub use moved_memory::moved_memory_is_clean;
pub use rewriting_laws::{optimised_is_verified, rewriting_keeps_verified};
pub use rewriting_order::{
    later_ones_are_left, lending_keeps_borrowable, lending_makes_no_copy, moving_keeps_borrowable,
    moving_keeps_values, moving_lets_none_borrow, moving_makes_no_copy,
};
pub use rewritten_typing_laws::rewriting_keeps_types;
