//! Runs accepted modules: lowers one, optimised first where that is asked for, runs the lowered module from an entry function, and
//! reports the run. What is optimised, what lowering makes, how a run goes and how a report is written, isn't said here.
#![tactic(auto)]

mod ending;
mod entry;
mod laws;
mod optimising;
mod report;
mod runner;

pub use holder_model::runs_end_once;
pub use laws::{names_have_one_entry, one_module_is_lowered, optimised_ends_as_it_did};
pub use module_runner_report::Ending;
pub use optimising::optimised_if;
pub use ownership_lowering::{lower, lower_in_place};
pub use ownership_lowering_runs::{
    lowered_runs_are_same, lowered_runs_end, numbers_are_counts, runs_end, runs_end_alike,
};
pub use report::{RunReport, report_text};
pub use runner::{RunEnd, run_checked, run_owned};
pub use sil_types::TypeTable;
