//! A module as its text writes it, with names and places where a module has numbers: plain data, and which of two faults
//! in it comes first. Its spellings share the bytes of the text, and it doesn't know what these say.
mod fault;
mod fault_order;
mod inst_box;
mod spelling;
mod written_declarations;
mod written_functions;
mod written_instructions;
mod written_module;

pub use fault::{Fault, FaultKind};
pub use fault_order::{earlier, limit_fault, out_of_range, passed};
pub use inst_box::InstBox;
pub use spelling::Spelling;
pub use written_declarations::{WrittenCase, WrittenDecl, WrittenField, WrittenToken};
pub use written_functions::{WrittenArg, WrittenBlock, WrittenFunction};
pub use written_instructions::{WrittenEdge, WrittenInst, WrittenOperand, WrittenQualifier};
pub use written_module::{WrittenEntry, WrittenItem, WrittenModule, WrittenVtable};
