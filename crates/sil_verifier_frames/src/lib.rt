//! Laws: in a run by holders of an accepted module what a frame holds is as its types and its trail say. `Typed`: entries, memory and tasks have
//! the shapes of their types. `Tracked`: no entry is missing where it is wanted, and none is held where it mustn't be. `Placed`: places and slots
//! on the stack are there, full and empty as the trail says. It has no code that runs.
#![tactic(auto)]
