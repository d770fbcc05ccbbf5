//! Of a table of entries the subjects that every walk of a function keeps: one search tells it of up to 1,024 together.
//! It knows of no instruction, and not what a rule says.
mod blocks;
mod marking;
mod settling;

pub use marking::mark_broken;
