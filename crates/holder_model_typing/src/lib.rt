//! Laws of typing in the words of a run: of what shape operands and results are, row by row, in typed modules of either form;
//! and the memory of a run is typed by the classes of its objects and the shapes of its slots.
//! It has no code that runs. It knows of no rule but those of typing, and not how these are decided.
#![tactic(auto)]

mod run_typing_laws;

pub use run_typing_laws::runnable_is_typed;
