//! Whether functions, calls, edges and vtables keep to signatures: the deciding functions of the rules on edges' arguments,
//! callees, external functions, signatures, deinitialisers, addresses that escape, and edges to the entry.
//! It knows of no order of rules, and no call takes memory but the one that makes the table of functions.
mod addresses;
mod callees;
mod conventions;
mod deinitialisers;
mod edges;
mod entry_arguments;
mod external;
mod functions;
mod signatures;

pub use addresses::lets_address_escape;
pub use callees::calls_no_function;
pub use deinitialisers::has_wrong_deinitialiser;
pub use edges::{goes_to_entry, has_wrong_edge_arguments};
pub use external::is_no_output_call;
pub use functions::find_value_functions;
pub use signatures::{differs_from_signature, has_wrong_signature};
