//! A column of the table of instructions: which instructions lowering makes another name for their operand.

use instruction_table::INSTRUCTION_COUNT;

/// Whether an instruction's result is lowered to another name for its operand.
pub static RENAMINGS: [bool; INSTRUCTION_COUNT] = [
    false, // integer_literal
    false, // function_ref
    false, // builtin
    false, // cond_fail
    false, // alloc_ref
    false, // alloc_stack
    false, // dealloc_stack
    true, // copy_value
    false, // destroy_value
    true, // move_value
    true, // begin_borrow
    false, // end_borrow
    false, // load
    false, // store
    false, // load_borrow
    false, // destroy_addr
    false, // load_weak
    false, // store_weak
    false, // load_unowned
    false, // store_unowned
    false, // struct
    false, // tuple
    false, // enum
    false, // struct_extract
    false, // tuple_extract
    false, // destructure_struct
    false, // destructure_tuple
    false, // struct_element_addr
    false, // tuple_element_addr
    false, // ref_element_addr
    false, // apply
    false, // debug_value
    false, // strong_retain
    false, // strong_release
    false, // retain_value
    false, // release_value
    false, // br
    false, // cond_br
    false, // switch_enum
    false, // return
    false, // unreachable
    false, // upcast
];
