//! The column of the table of instructions that says what lowering makes of an instruction.

use crate::lowering::Lowering;
use crate::lowering::Lowering::{
    Destroys, ExtractsElements, ExtractsFields, Loads, Releases, Retains, Stays, Stores, Vanishes,
};
use instruction_table::INSTRUCTION_COUNT;

/// What each instruction is lowered to.
pub static LOWERINGS: [Lowering; INSTRUCTION_COUNT] = [
    Stays, // integer_literal
    Stays, // function_ref
    Stays, // builtin
    Stays, // cond_fail
    Stays, // alloc_ref
    Stays, // alloc_stack
    Stays, // dealloc_stack
    Retains, // copy_value
    Releases, // destroy_value
    Vanishes, // move_value
    Vanishes, // begin_borrow
    Vanishes, // end_borrow
    Loads, // load
    Stores, // store
    Loads, // load_borrow
    Destroys, // destroy_addr
    Stays, // load_weak
    Stays, // store_weak
    Stays, // load_unowned
    Stays, // store_unowned
    Stays, // struct
    Stays, // tuple
    Stays, // enum
    Stays, // struct_extract
    Stays, // tuple_extract
    ExtractsFields, // destructure_struct
    ExtractsElements, // destructure_tuple
    Stays, // struct_element_addr
    Stays, // tuple_element_addr
    Stays, // ref_element_addr
    Stays, // apply
    Stays, // debug_value
    Stays, // strong_retain
    Stays, // strong_release
    Stays, // retain_value
    Stays, // release_value
    Stays, // br
    Stays, // cond_br
    Stays, // switch_enum
    Stays, // return
    Stays, // unreachable
    Stays, // upcast
];
