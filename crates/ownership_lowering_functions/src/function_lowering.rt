//! Lowers functions: ownership becomes retains and releases, and values are numbered anew. It knows of no rule and no run.
mod blocks;
mod counts;
mod defined;
mod draft;
mod drafting;
mod extracts;
mod functions;
mod names;
mod numbers;
mod staying;
mod words;
mod writing;

pub use functions::lower_functions;
