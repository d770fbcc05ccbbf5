//! Code that is made ready to run: of each function where its values stand in a frame, and what each instruction reads and writes there,
//! by numbers that were found once. It knows of no state of a run.
mod block;
mod function;
mod local;
mod op;

pub use block::{ReadyBlock, ReadyCase, ReadyEdge, ReadyEnd};
pub use function::{ReadyClass, ReadyFunction, ReadyModule};
pub use local::{Carry, CarryAddress, Local, LocalAddress};
pub use op::ReadyOp;
