//! Two columns of the table of instructions: what an instruction does to memory, and which unfinished objects it takes.

ghost use Rattle.std.specs.Prelude.{◌≡◌};
ghost use Rattle.memory_rules_accesses.specs.Operations as operations;
ghost use Rattle.memory_rules_accesses.specs.Accesses as accesses;

use crate::columns::AccessKind::{
    AllocatesObject, AllocatesSlot, DeallocatesSlot, Destroys, LendsLocation, LendsValue, Loads,
    NamesElement, NamesField, NamesMember, NoAccess, Passes, Stores, Upcasts,
};
use crate::columns::Allowance::{BothOfThem, BuildingBorrow, FreshObject, NeitherOfThem};
use instruction_table::{INSTRUCTION_COUNT, Op};

/// What an instruction does to memory.
#[derive(Clone, Copy, PartialEq, Eq)]
pub enum AccessKind {
    NoAccess,
    /// Its result is a new slot.
    AllocatesSlot,
    /// Its result is a new object, whose fields are empty.
    AllocatesObject,
    DeallocatesSlot,
    /// Its result borrows the operand's value.
    LendsValue,
    /// Its result borrows what a location holds.
    LendsLocation,
    /// Its result is the operand's object, as an instance of an ancestor.
    Upcasts,
    /// Its result is the address of a field of an object.
    NamesField,
    /// Its result is the address of a member of the struct at an address.
    NamesMember,
    /// Its result is the address of an element of the tuple at an address.
    NamesElement,
    /// It takes what a location holds, with the word `[take]`, or else reads it.
    Loads,
    /// It writes a location: for the first time with `[init]`, a trivial value with `[trivial]`.
    Stores,
    /// It takes what a location holds away.
    Destroys,
    /// It hands addresses to a function, by the conventions of its arguments.
    Passes,
}

/// Which of the two an instruction takes as an operand, while a field of the object isn't written.
#[derive(Clone, Copy, Debug, PartialEq, Eq)]
pub enum Allowance {
    NeitherOfThem,
    /// The new object itself.
    FreshObject,
    /// A borrow of it.
    BuildingBorrow,
    BothOfThem,
}

/// What each instruction does to memory.
pub static ACCESSES: [AccessKind; INSTRUCTION_COUNT] = [
    NoAccess, // integer_literal
    NoAccess, // function_ref
    NoAccess, // builtin
    NoAccess, // cond_fail
    AllocatesObject, // alloc_ref
    AllocatesSlot, // alloc_stack
    DeallocatesSlot, // dealloc_stack
    NoAccess, // copy_value
    NoAccess, // destroy_value
    NoAccess, // move_value
    LendsValue, // begin_borrow
    NoAccess, // end_borrow
    Loads, // load
    Stores, // store
    LendsLocation, // load_borrow
    Destroys, // destroy_addr
    Loads, // load_weak
    Stores, // store_weak
    Loads, // load_unowned
    Stores, // store_unowned
    NoAccess, // struct
    NoAccess, // tuple
    NoAccess, // enum
    NoAccess, // struct_extract
    NoAccess, // tuple_extract
    NoAccess, // destructure_struct
    NoAccess, // destructure_tuple
    NamesMember, // struct_element_addr
    NamesElement, // tuple_element_addr
    NamesField, // ref_element_addr
    Passes, // apply
    NoAccess, // debug_value
    NoAccess, // strong_retain
    NoAccess, // strong_release
    NoAccess, // retain_value
    NoAccess, // release_value
    NoAccess, // br
    NoAccess, // cond_br
    NoAccess, // switch_enum
    NoAccess, // return
    NoAccess, // unreachable
    Upcasts, // upcast
];

/// Which unfinished objects each instruction takes.
pub static ALLOWANCES: [Allowance; INSTRUCTION_COUNT] = [
    NeitherOfThem, // integer_literal
    NeitherOfThem, // function_ref
    NeitherOfThem, // builtin
    NeitherOfThem, // cond_fail
    NeitherOfThem, // alloc_ref
    NeitherOfThem, // alloc_stack
    NeitherOfThem, // dealloc_stack
    NeitherOfThem, // copy_value
    NeitherOfThem, // destroy_value
    NeitherOfThem, // move_value
    FreshObject, // begin_borrow
    BuildingBorrow, // end_borrow
    NeitherOfThem, // load
    NeitherOfThem, // store
    NeitherOfThem, // load_borrow
    NeitherOfThem, // destroy_addr
    NeitherOfThem, // load_weak
    NeitherOfThem, // store_weak
    NeitherOfThem, // load_unowned
    NeitherOfThem, // store_unowned
    NeitherOfThem, // struct
    NeitherOfThem, // tuple
    NeitherOfThem, // enum
    NeitherOfThem, // struct_extract
    NeitherOfThem, // tuple_extract
    NeitherOfThem, // destructure_struct
    NeitherOfThem, // destructure_tuple
    NeitherOfThem, // struct_element_addr
    NeitherOfThem, // tuple_element_addr
    BuildingBorrow, // ref_element_addr
    NeitherOfThem, // apply
    BothOfThem, // debug_value
    NeitherOfThem, // strong_retain
    NeitherOfThem, // strong_release
    NeitherOfThem, // retain_value
    NeitherOfThem, // release_value
    NeitherOfThem, // br
    NeitherOfThem, // cond_br
    NeitherOfThem, // switch_enum
    NeitherOfThem, // return
    NeitherOfThem, // unreachable
    BuildingBorrow, // upcast
];

/// What an instruction does to memory.
pub fn access_kind_of(op: Op) -> AccessKind
    ensures { result ≡ operations.access_kind_of op }
{
    ACCESSES[op as usize]
}

/// Which unfinished objects an instruction takes.
pub fn allowance_of(op: Op) -> Allowance
    ensures { result ≡ accesses.allowance_of op }
{
    ALLOWANCES[op as usize]
}
