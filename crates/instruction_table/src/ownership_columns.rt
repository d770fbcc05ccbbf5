//! The table of instructions, the columns on ownership: what an instruction does to its operands, and what kind its results have.

use crate::entries::ResultKind::{
    AddressResult, ForwardedResult, NoneResult, OperandResult, OwnedResult, ScopeResult,
};
use crate::entries::Role::{
    AddressRole, AnyRole, ByParameter, Consumed, Counted, Forwarded, Lent, ScopeRole, Used,
};
use crate::entries::{ResultKind, Role};
use crate::op::INSTRUCTION_COUNT;

/// What an instruction does to its operands, in order. The last role is that of all operands behind it. The arguments of edges are consumed.
pub static ROLES: [&[Role]; INSTRUCTION_COUNT] = [
    &[], // integer_literal
    &[], // function_ref
    &[Used], // builtin
    &[Used], // cond_fail
    &[], // alloc_ref
    &[], // alloc_stack
    &[AddressRole], // dealloc_stack
    &[Used], // copy_value
    &[Consumed], // destroy_value
    &[Consumed], // move_value
    &[Used], // begin_borrow
    &[ScopeRole], // end_borrow
    &[AddressRole], // load
    &[Consumed, AddressRole], // store
    &[AddressRole], // load_borrow
    &[AddressRole], // destroy_addr
    &[AddressRole], // load_weak
    &[Used, AddressRole], // store_weak
    &[AddressRole], // load_unowned
    &[Used, AddressRole], // store_unowned
    &[Forwarded], // struct
    &[Forwarded], // tuple
    &[Forwarded], // enum
    &[Lent], // struct_extract
    &[Lent], // tuple_extract
    &[Forwarded], // destructure_struct
    &[Forwarded], // destructure_tuple
    &[AddressRole], // struct_element_addr
    &[AddressRole], // tuple_element_addr
    &[Lent], // ref_element_addr
    &[Used, ByParameter], // apply
    &[AnyRole], // debug_value
    &[Counted], // strong_retain
    &[Counted], // strong_release
    &[Counted], // retain_value
    &[Counted], // release_value
    &[], // br
    &[Used], // cond_br
    &[Forwarded], // switch_enum
    &[Consumed], // return
    &[], // unreachable
    &[Forwarded], // upcast
];

/// Of what kind an instruction's results are, where their types aren't trivial. Of `switch_enum`, the arguments of its blocks.
pub static RESULT_KINDS: [ResultKind; INSTRUCTION_COUNT] = [
    NoneResult, // integer_literal
    NoneResult, // function_ref
    NoneResult, // builtin
    NoneResult, // cond_fail
    OwnedResult, // alloc_ref
    AddressResult, // alloc_stack
    NoneResult, // dealloc_stack
    OwnedResult, // copy_value
    NoneResult, // destroy_value
    OwnedResult, // move_value
    ScopeResult, // begin_borrow
    NoneResult, // end_borrow
    OwnedResult, // load
    NoneResult, // store
    ScopeResult, // load_borrow
    NoneResult, // destroy_addr
    OwnedResult, // load_weak
    NoneResult, // store_weak
    OwnedResult, // load_unowned
    NoneResult, // store_unowned
    ForwardedResult, // struct
    ForwardedResult, // tuple
    ForwardedResult, // enum
    OperandResult, // struct_extract
    OperandResult, // tuple_extract
    ForwardedResult, // destructure_struct
    ForwardedResult, // destructure_tuple
    AddressResult, // struct_element_addr
    AddressResult, // tuple_element_addr
    AddressResult, // ref_element_addr
    OwnedResult, // apply
    NoneResult, // debug_value
    NoneResult, // strong_retain
    NoneResult, // strong_release
    NoneResult, // retain_value
    NoneResult, // release_value
    NoneResult, // br
    NoneResult, // cond_br
    ForwardedResult, // switch_enum
    NoneResult, // return
    NoneResult, // unreachable
    ForwardedResult, // upcast
];
