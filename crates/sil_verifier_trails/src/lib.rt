//! Laws: what acceptance says of the trails of a function, up to one record of positive facts (`AcceptedFacts`).
//! Values are defined where they are operands, Owned values are held and scopes open where they are used, and what a scope
//! borrows from stays as it is; slots, cells, loans and fields are as each access needs them; the entries of a frame go along
//! with the marks of its trail.
//! It has no code that runs. It knows of no search, and of no state of a run.
#![tactic(auto)]
