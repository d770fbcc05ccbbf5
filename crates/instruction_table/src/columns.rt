//! The table of instructions, column by column. The number of an instruction is its place in each column.
//! A definition reads a column as the code does, so an answer is written once.

use crate::entries::Detail::{Case, Element, Field, Literal, Message, NoDetail, Operation};
use crate::entries::Ending::{Cases, Inside, OneBranch, Return, TwoBranches, Unreachable};
use crate::entries::ExtraValue::{Always, Never, WhereAssigned};
use crate::entries::Results::{NoResult, OneResult, ResultList};
use crate::entries::Words::{AnyWord, InitWord, NoWord, TakeWord};
use crate::entries::{Detail, Ending, ExtraValue, Results, Words};
use crate::forms::Part;
use crate::op::INSTRUCTION_COUNT;

/// The word with which an instruction begins, behind its results.
pub static MNEMONICS: [&[u8]; INSTRUCTION_COUNT] = [
    b"integer_literal",
    b"function_ref",
    b"builtin",
    b"cond_fail",
    b"alloc_ref",
    b"alloc_stack",
    b"dealloc_stack",
    b"copy_value",
    b"destroy_value",
    b"move_value",
    b"begin_borrow",
    b"end_borrow",
    b"load",
    b"store",
    b"load_borrow",
    b"destroy_addr",
    b"load_weak",
    b"store_weak",
    b"load_unowned",
    b"store_unowned",
    b"struct",
    b"tuple",
    b"enum",
    b"struct_extract",
    b"tuple_extract",
    b"destructure_struct",
    b"destructure_tuple",
    b"struct_element_addr",
    b"tuple_element_addr",
    b"ref_element_addr",
    b"apply",
    b"debug_value",
    b"strong_retain",
    b"strong_release",
    b"retain_value",
    b"release_value",
    b"br",
    b"cond_br",
    b"switch_enum",
    b"return",
    b"unreachable",
    b"upcast",
];

/// The parts behind that word, from left to right. Both flags may stand where a row has `Flags`.
pub static PARTS: [&[Part]; INSTRUCTION_COUNT] = [
    &[Part::TypeWord, Part::Number], // integer_literal
    &[Part::Callee, Part::SignatureWord], // function_ref
    &[Part::Text, Part::TypedArgs, Part::ResultType], // builtin
    &[Part::Typed, Part::Text], // cond_fail
    &[Part::TypeWord], // alloc_ref
    &[Part::Flags, Part::TypeWord, Part::Debug], // alloc_stack
    &[Part::Typed], // dealloc_stack
    &[Part::Typed], // copy_value
    &[Part::Typed], // destroy_value
    &[Part::Flags, Part::Typed], // move_value
    &[Part::Flags, Part::Typed], // begin_borrow
    &[Part::Typed], // end_borrow
    &[Part::Qualifier, Part::Typed], // load
    &[Part::Bare, Part::To, Part::Qualifier, Part::Typed], // store
    &[Part::Typed], // load_borrow
    &[Part::Typed], // destroy_addr
    &[Part::Qualifier, Part::Typed], // load_weak
    &[Part::Bare, Part::To, Part::Qualifier, Part::Typed], // store_weak
    &[Part::Qualifier, Part::Typed], // load_unowned
    &[Part::Bare, Part::To, Part::Qualifier, Part::Typed], // store_unowned
    &[Part::TypeWord, Part::TypedArgs], // struct
    &[Part::TypedArgs], // tuple
    &[Part::TypeWord, Part::Member, Part::Typed], // enum
    &[Part::Typed, Part::Member], // struct_extract
    &[Part::Typed, Part::Number], // tuple_extract
    &[Part::Typed], // destructure_struct
    &[Part::Typed], // destructure_tuple
    &[Part::Typed, Part::Member], // struct_element_addr
    &[Part::Typed, Part::Number], // tuple_element_addr
    &[Part::Typed, Part::Member], // ref_element_addr
    &[Part::Bare, Part::BareArgs, Part::SignatureWord], // apply
    &[Part::Typed, Part::Debug], // debug_value
    &[Part::Typed], // strong_retain
    &[Part::Typed], // strong_release
    &[Part::Typed], // retain_value
    &[Part::Typed], // release_value
    &[Part::Edges], // br
    &[Part::Bare, Part::Edges], // cond_br
    &[Part::Typed, Part::Edges], // switch_enum
    &[Part::Typed], // return
    &[], // unreachable
    &[Part::Typed, Part::To, Part::TypeWord], // upcast
];

/// How many results an instruction has.
pub static RESULTS: [Results; INSTRUCTION_COUNT] = [
    OneResult, // integer_literal
    OneResult, // function_ref
    OneResult, // builtin
    NoResult, // cond_fail
    OneResult, // alloc_ref
    OneResult, // alloc_stack
    NoResult, // dealloc_stack
    OneResult, // copy_value
    NoResult, // destroy_value
    OneResult, // move_value
    OneResult, // begin_borrow
    NoResult, // end_borrow
    OneResult, // load
    NoResult, // store
    OneResult, // load_borrow
    NoResult, // destroy_addr
    OneResult, // load_weak
    NoResult, // store_weak
    OneResult, // load_unowned
    NoResult, // store_unowned
    OneResult, // struct
    OneResult, // tuple
    OneResult, // enum
    OneResult, // struct_extract
    OneResult, // tuple_extract
    ResultList, // destructure_struct
    ResultList, // destructure_tuple
    OneResult, // struct_element_addr
    OneResult, // tuple_element_addr
    OneResult, // ref_element_addr
    OneResult, // apply
    NoResult, // debug_value
    NoResult, // strong_retain
    NoResult, // strong_release
    NoResult, // retain_value
    NoResult, // release_value
    NoResult, // br
    NoResult, // cond_br
    NoResult, // switch_enum
    NoResult, // return
    NoResult, // unreachable
    OneResult, // upcast
];

/// Whether an instruction ends a block, and what comes then.
pub static ENDINGS: [Ending; INSTRUCTION_COUNT] = [
    Inside, // integer_literal
    Inside, // function_ref
    Inside, // builtin
    Inside, // cond_fail
    Inside, // alloc_ref
    Inside, // alloc_stack
    Inside, // dealloc_stack
    Inside, // copy_value
    Inside, // destroy_value
    Inside, // move_value
    Inside, // begin_borrow
    Inside, // end_borrow
    Inside, // load
    Inside, // store
    Inside, // load_borrow
    Inside, // destroy_addr
    Inside, // load_weak
    Inside, // store_weak
    Inside, // load_unowned
    Inside, // store_unowned
    Inside, // struct
    Inside, // tuple
    Inside, // enum
    Inside, // struct_extract
    Inside, // tuple_extract
    Inside, // destructure_struct
    Inside, // destructure_tuple
    Inside, // struct_element_addr
    Inside, // tuple_element_addr
    Inside, // ref_element_addr
    Inside, // apply
    Inside, // debug_value
    Inside, // strong_retain
    Inside, // strong_release
    Inside, // retain_value
    Inside, // release_value
    OneBranch, // br
    TwoBranches, // cond_br
    Cases, // switch_enum
    Return, // return
    Unreachable, // unreachable
    Inside, // upcast
];

/// Which words may stand in brackets.
pub static WORDS: [Words; INSTRUCTION_COUNT] = [
    NoWord, // integer_literal
    NoWord, // function_ref
    NoWord, // builtin
    NoWord, // cond_fail
    NoWord, // alloc_ref
    NoWord, // alloc_stack
    NoWord, // dealloc_stack
    NoWord, // copy_value
    NoWord, // destroy_value
    NoWord, // move_value
    NoWord, // begin_borrow
    NoWord, // end_borrow
    AnyWord, // load
    AnyWord, // store
    NoWord, // load_borrow
    NoWord, // destroy_addr
    TakeWord, // load_weak
    InitWord, // store_weak
    TakeWord, // load_unowned
    InitWord, // store_unowned
    NoWord, // struct
    NoWord, // tuple
    NoWord, // enum
    NoWord, // struct_extract
    NoWord, // tuple_extract
    NoWord, // destructure_struct
    NoWord, // destructure_tuple
    NoWord, // struct_element_addr
    NoWord, // tuple_element_addr
    NoWord, // ref_element_addr
    NoWord, // apply
    NoWord, // debug_value
    NoWord, // strong_retain
    NoWord, // strong_release
    NoWord, // retain_value
    NoWord, // release_value
    NoWord, // br
    NoWord, // cond_br
    NoWord, // switch_enum
    NoWord, // return
    NoWord, // unreachable
    NoWord, // upcast
];

/// Whether the operands may be left out.
pub static OPTIONAL_OPERANDS: [bool; INSTRUCTION_COUNT] = [
    false, // integer_literal
    false, // function_ref
    false, // builtin
    false, // cond_fail
    false, // alloc_ref
    false, // alloc_stack
    false, // dealloc_stack
    false, // copy_value
    false, // destroy_value
    false, // move_value
    false, // begin_borrow
    false, // end_borrow
    false, // load
    false, // store
    false, // load_borrow
    false, // destroy_addr
    false, // load_weak
    false, // store_weak
    false, // load_unowned
    false, // store_unowned
    false, // struct
    false, // tuple
    true, // enum
    false, // struct_extract
    false, // tuple_extract
    false, // destructure_struct
    false, // destructure_tuple
    false, // struct_element_addr
    false, // tuple_element_addr
    false, // ref_element_addr
    false, // apply
    false, // debug_value
    false, // strong_retain
    false, // strong_release
    false, // retain_value
    false, // release_value
    false, // br
    false, // cond_br
    false, // switch_enum
    false, // return
    false, // unreachable
    false, // upcast
];

/// What an instruction's number, text or member says.
pub static DETAILS: [Detail; INSTRUCTION_COUNT] = [
    Literal, // integer_literal
    NoDetail, // function_ref
    Operation, // builtin
    Message, // cond_fail
    NoDetail, // alloc_ref
    NoDetail, // alloc_stack
    NoDetail, // dealloc_stack
    NoDetail, // copy_value
    NoDetail, // destroy_value
    NoDetail, // move_value
    NoDetail, // begin_borrow
    NoDetail, // end_borrow
    NoDetail, // load
    NoDetail, // store
    NoDetail, // load_borrow
    NoDetail, // destroy_addr
    NoDetail, // load_weak
    NoDetail, // store_weak
    NoDetail, // load_unowned
    NoDetail, // store_unowned
    NoDetail, // struct
    NoDetail, // tuple
    Case, // enum
    Field, // struct_extract
    Element, // tuple_extract
    NoDetail, // destructure_struct
    NoDetail, // destructure_tuple
    Field, // struct_element_addr
    Element, // tuple_element_addr
    Field, // ref_element_addr
    NoDetail, // apply
    NoDetail, // debug_value
    NoDetail, // strong_retain
    NoDetail, // strong_release
    NoDetail, // retain_value
    NoDetail, // release_value
    NoDetail, // br
    NoDetail, // cond_br
    NoDetail, // switch_enum
    NoDetail, // return
    NoDetail, // unreachable
    NoDetail, // upcast
];

/// Whether an instruction counts for one value more than it defines.
pub static EXTRA_VALUES: [ExtraValue; INSTRUCTION_COUNT] = [
    Never, // integer_literal
    Never, // function_ref
    Never, // builtin
    Never, // cond_fail
    Never, // alloc_ref
    Never, // alloc_stack
    Never, // dealloc_stack
    Never, // copy_value
    Never, // destroy_value
    Never, // move_value
    Never, // begin_borrow
    Never, // end_borrow
    Never, // load
    WhereAssigned, // store
    Never, // load_borrow
    Always, // destroy_addr
    Never, // load_weak
    Never, // store_weak
    Never, // load_unowned
    Never, // store_unowned
    Never, // struct
    Never, // tuple
    Never, // enum
    Never, // struct_extract
    Never, // tuple_extract
    Never, // destructure_struct
    Never, // destructure_tuple
    Never, // struct_element_addr
    Never, // tuple_element_addr
    Never, // ref_element_addr
    Never, // apply
    Never, // debug_value
    Never, // strong_retain
    Never, // strong_release
    Never, // retain_value
    Never, // release_value
    Never, // br
    Never, // cond_br
    Never, // switch_enum
    Never, // return
    Never, // unreachable
    Never, // upcast
];
