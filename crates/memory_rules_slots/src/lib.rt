//! Rule 604 of two slots: one isn't deallocated while another that was allocated after it still is allocated.
//! It knows what an item does to memory, and of no instruction.
#![tactic(auto)]

mod chunk;
mod crossing;
mod deallocated;
mod doubts;
mod first;
mod guess;
mod mark;
mod nearest;
mod nested;
mod pair;
mod rivals;
mod search;
mod slots;
mod stack;
mod touched;
mod walk_order;

pub use crossing::Crossing;
pub use first::first_crossing;
pub use mark::SlotMark;
