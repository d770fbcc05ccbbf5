//! The command: words and bytes in, bytes and a status out, by the public contracts of the layers below.
//! It knows nothing of how a text is read, nor of where bytes come from.
#![tactic(auto)]

mod answer;
mod copies;
mod generate;
mod given_text;
mod laws;
mod reading;
mod refusal_lines;
mod run_answer;
mod run_words;
mod size_words;
mod status;
mod top_call;
mod verified;
mod words;

pub use laws::{
    accepted_exactly, generated_exactly, generated_modules_have_main, lowered_exactly,
    no_entry_exactly, optimised_exactly, printed_exactly, printed_texts_read_back,
    refused_for_the_first, reported_rightly, run_exactly,
};
pub use sil_command_generator::generated_text;
pub use status::Status;
pub use top_call::command;
