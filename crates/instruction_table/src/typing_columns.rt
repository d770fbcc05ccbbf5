//! The table of instructions, the columns on types: what stands in which form, and which types an instruction mentions or asks for.

use crate::entries::BareOperands::{
    Arguments, Condition, NoBare, StoredValue, UnownedValue, WeakValue,
};
use crate::entries::InForms::{BothForms, ByStorage, ByWord, LoweredForm, OwnershipForm};
use crate::entries::TypeWords::{AnyType, ReadWords, WriteWords};
use crate::entries::{BareOperands, InForms, TypeWords};
use crate::op::INSTRUCTION_COUNT;

/// Whether weak and unowned storage may stand behind an instruction as its type.
pub static STORAGE_TYPES: [bool; INSTRUCTION_COUNT] = [
    false, // integer_literal
    false, // function_ref
    false, // builtin
    false, // cond_fail
    false, // alloc_ref
    true, // alloc_stack
    false, // dealloc_stack
    false, // copy_value
    false, // destroy_value
    false, // move_value
    false, // begin_borrow
    false, // end_borrow
    false, // load
    false, // store
    false, // load_borrow
    false, // destroy_addr
    false, // load_weak
    false, // store_weak
    false, // load_unowned
    false, // store_unowned
    false, // struct
    false, // tuple
    false, // enum
    false, // struct_extract
    false, // tuple_extract
    false, // destructure_struct
    false, // destructure_tuple
    false, // struct_element_addr
    false, // tuple_element_addr
    false, // ref_element_addr
    false, // apply
    false, // debug_value
    false, // strong_retain
    false, // strong_release
    false, // retain_value
    false, // release_value
    false, // br
    false, // cond_br
    false, // switch_enum
    false, // return
    false, // unreachable
    false, // upcast
];

/// Whether an instruction makes the tuple of its operands.
pub static OPERAND_TUPLES: [bool; INSTRUCTION_COUNT] = [
    false, // integer_literal
    false, // function_ref
    false, // builtin
    false, // cond_fail
    false, // alloc_ref
    false, // alloc_stack
    false, // dealloc_stack
    false, // copy_value
    false, // destroy_value
    false, // move_value
    false, // begin_borrow
    false, // end_borrow
    false, // load
    false, // store
    false, // load_borrow
    false, // destroy_addr
    false, // load_weak
    false, // store_weak
    false, // load_unowned
    false, // store_unowned
    false, // struct
    true, // tuple
    false, // enum
    false, // struct_extract
    false, // tuple_extract
    false, // destructure_struct
    false, // destructure_tuple
    false, // struct_element_addr
    false, // tuple_element_addr
    false, // ref_element_addr
    false, // apply
    false, // debug_value
    false, // strong_retain
    false, // strong_release
    false, // retain_value
    false, // release_value
    false, // br
    false, // cond_br
    false, // switch_enum
    false, // return
    false, // unreachable
    false, // upcast
];

/// In functions of which form an instruction may stand.
pub static FORMS: [InForms; INSTRUCTION_COUNT] = [
    BothForms, // integer_literal
    BothForms, // function_ref
    BothForms, // builtin
    BothForms, // cond_fail
    BothForms, // alloc_ref
    BothForms, // alloc_stack
    BothForms, // dealloc_stack
    OwnershipForm, // copy_value
    OwnershipForm, // destroy_value
    OwnershipForm, // move_value
    OwnershipForm, // begin_borrow
    OwnershipForm, // end_borrow
    ByWord, // load
    ByWord, // store
    OwnershipForm, // load_borrow
    ByStorage, // destroy_addr
    BothForms, // load_weak
    BothForms, // store_weak
    BothForms, // load_unowned
    BothForms, // store_unowned
    BothForms, // struct
    BothForms, // tuple
    BothForms, // enum
    BothForms, // struct_extract
    BothForms, // tuple_extract
    OwnershipForm, // destructure_struct
    OwnershipForm, // destructure_tuple
    BothForms, // struct_element_addr
    BothForms, // tuple_element_addr
    BothForms, // ref_element_addr
    BothForms, // apply
    BothForms, // debug_value
    LoweredForm, // strong_retain
    LoweredForm, // strong_release
    LoweredForm, // retain_value
    LoweredForm, // release_value
    BothForms, // br
    BothForms, // cond_br
    BothForms, // switch_enum
    BothForms, // return
    BothForms, // unreachable
    BothForms, // upcast
];

/// Which words an instruction takes for which types, in a function in ownership form.
pub static TYPE_WORDS: [TypeWords; INSTRUCTION_COUNT] = [
    AnyType, // integer_literal
    AnyType, // function_ref
    AnyType, // builtin
    AnyType, // cond_fail
    AnyType, // alloc_ref
    AnyType, // alloc_stack
    AnyType, // dealloc_stack
    AnyType, // copy_value
    AnyType, // destroy_value
    AnyType, // move_value
    AnyType, // begin_borrow
    AnyType, // end_borrow
    ReadWords, // load
    WriteWords, // store
    AnyType, // load_borrow
    AnyType, // destroy_addr
    AnyType, // load_weak
    AnyType, // store_weak
    AnyType, // load_unowned
    AnyType, // store_unowned
    AnyType, // struct
    AnyType, // tuple
    AnyType, // enum
    AnyType, // struct_extract
    AnyType, // tuple_extract
    AnyType, // destructure_struct
    AnyType, // destructure_tuple
    AnyType, // struct_element_addr
    AnyType, // tuple_element_addr
    AnyType, // ref_element_addr
    AnyType, // apply
    AnyType, // debug_value
    AnyType, // strong_retain
    AnyType, // strong_release
    AnyType, // retain_value
    AnyType, // release_value
    AnyType, // br
    AnyType, // cond_br
    AnyType, // switch_enum
    AnyType, // return
    AnyType, // unreachable
    AnyType, // upcast
];

/// What the operands without a written type stand for, which tells their types.
pub static BARE_OPERANDS: [BareOperands; INSTRUCTION_COUNT] = [
    NoBare, // integer_literal
    NoBare, // function_ref
    NoBare, // builtin
    NoBare, // cond_fail
    NoBare, // alloc_ref
    NoBare, // alloc_stack
    NoBare, // dealloc_stack
    NoBare, // copy_value
    NoBare, // destroy_value
    NoBare, // move_value
    NoBare, // begin_borrow
    NoBare, // end_borrow
    NoBare, // load
    StoredValue, // store
    NoBare, // load_borrow
    NoBare, // destroy_addr
    NoBare, // load_weak
    WeakValue, // store_weak
    NoBare, // load_unowned
    UnownedValue, // store_unowned
    NoBare, // struct
    NoBare, // tuple
    NoBare, // enum
    NoBare, // struct_extract
    NoBare, // tuple_extract
    NoBare, // destructure_struct
    NoBare, // destructure_tuple
    NoBare, // struct_element_addr
    NoBare, // tuple_element_addr
    NoBare, // ref_element_addr
    Arguments, // apply
    NoBare, // debug_value
    NoBare, // strong_retain
    NoBare, // strong_release
    NoBare, // retain_value
    NoBare, // release_value
    NoBare, // br
    Condition, // cond_br
    NoBare, // switch_enum
    NoBare, // return
    NoBare, // unreachable
    NoBare, // upcast
];
