//! The column of the table of instructions that says what an instruction does in a run.

use crate::row_effect::RowEffect;
use crate::row_effect::RowEffect::{
    AddressesField, AddressesMember, CallsFunction, ChoosesCase, Computes, CopiesOperand,
    DestroysPlace, DropsOperand, GivesFunction, GivesLiteral, GivesMember, GivesMembers,
    GivesOperand, Groups, LoadsName, LoadsValue, MakesObject, MakesSlot, NoEffect, RemovesSlot,
    RetainsOperand, StoresValue, TrapsWhereSet,
};
use instruction_table::INSTRUCTION_COUNT;

/// What each instruction does in a run.
pub static EFFECTS: [RowEffect; INSTRUCTION_COUNT] = [
    GivesLiteral, // integer_literal
    GivesFunction, // function_ref
    Computes, // builtin
    TrapsWhereSet, // cond_fail
    MakesObject, // alloc_ref
    MakesSlot, // alloc_stack
    RemovesSlot, // dealloc_stack
    CopiesOperand, // copy_value
    DropsOperand, // destroy_value
    GivesOperand, // move_value
    GivesOperand, // begin_borrow
    NoEffect, // end_borrow
    LoadsValue, // load
    StoresValue, // store
    LoadsValue, // load_borrow
    DestroysPlace, // destroy_addr
    LoadsName, // load_weak
    StoresValue, // store_weak
    LoadsName, // load_unowned
    StoresValue, // store_unowned
    Groups, // struct
    Groups, // tuple
    ChoosesCase, // enum
    GivesMember, // struct_extract
    GivesMember, // tuple_extract
    GivesMembers, // destructure_struct
    GivesMembers, // destructure_tuple
    AddressesMember, // struct_element_addr
    AddressesMember, // tuple_element_addr
    AddressesField, // ref_element_addr
    CallsFunction, // apply
    NoEffect, // debug_value
    RetainsOperand, // strong_retain
    DropsOperand, // strong_release
    RetainsOperand, // retain_value
    DropsOperand, // release_value
    NoEffect, // br
    NoEffect, // cond_br
    NoEffect, // switch_enum
    NoEffect, // return
    NoEffect, // unreachable
    GivesOperand, // upcast
];
