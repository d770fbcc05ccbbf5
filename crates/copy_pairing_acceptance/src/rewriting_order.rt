//! The laws of the order in which copies go: what the rewriting of one changes for the others. It has no code that runs.
mod laws;

pub use laws::{
    later_ones_are_left, lending_keeps_borrowable, lending_makes_no_copy, moving_keeps_borrowable,
    moving_keeps_values, moving_lets_none_borrow, moving_makes_no_copy,
};
