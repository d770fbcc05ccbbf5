//! The state of the machine that runs lowered code by stored numbers, and what its steps are made of. It knows of no instruction.
#![tactic(auto)]

mod begin;
mod calling;
mod forgetting;
mod groups;
mod held;
mod machine;
mod named;
mod object_fields;
mod objects;
mod operands;
mod parts;
mod retaining;
mod slots;
mod stack;
mod stop;
mod turning;
mod waiting;

pub use held::NameHeld;
pub use machine::Machine;
pub use stop::{Stop, fault, missing};
