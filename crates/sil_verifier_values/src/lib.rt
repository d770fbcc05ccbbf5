//! The laws of the values of a function of an accepted module: their kinds and bases, where they are made, what the tables say of them, and what may
//! be an operand. It has no code that runs.
#![tactic(auto)]
