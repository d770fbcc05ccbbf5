//! The types of a function's values, and whether instructions have operands and results of the types that their rows ask for.
//! Whether functions, calls, edges and vtables keep to signatures: the deciding functions of the rules on edges' arguments,
//! callees, external functions, signatures, deinitialisers, addresses that escape, and edges to the entry.
//! It copies no type, and knows of no ownership and no order of rules.
#![tactic(auto)]

mod typing_signatures;
mod typing_values;

pub use typing_signatures::{
    calls_no_function, differs_from_signature, find_value_functions, goes_to_entry,
    has_wrong_deinitialiser, has_wrong_edge_arguments, has_wrong_signature, is_no_output_call,
    lets_address_escape,
};
pub use typing_values::{
    GivenTypes, find_types, find_value_types, has_wrong_operand_type, has_wrong_result_count,
};
