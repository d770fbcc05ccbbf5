//! Searches every walk of a graph by a small automaton over items, for one subject or for many at once.
//! It knows blocks, edges and the numbers of items, and nothing of what an item does.
#![tactic(auto)]

mod bits;
mod bundle;
mod effect;
mod family;
mod found;
mod frontier;
mod member;
mod rows;
mod scan;
mod together;
mod worklist;

pub use bundle::{turn_subject, turn_touched};
pub use family::{Family, MoveAll};
pub use found::{Found, StateMap};
pub use scan::{Scan, Step};
pub use together::{Broken, FamilyMap, FoundAll, first_broken, search_all};
pub use worklist::search;
