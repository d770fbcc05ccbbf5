//! The functions of a module that a run can come to, and the classes whose deinitialisers are among them. It knows of no layout, and of no
//! code that was made ready.
mod classes;
mod reached;

pub use classes::ready_classes;
pub use reached::reached_from;
