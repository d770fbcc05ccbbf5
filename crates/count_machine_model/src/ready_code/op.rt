//! What an instruction does, made ready to run.

use crate::ready_code::local::{Carry, CarryAddress, Local, LocalAddress};
use instruction_table::{Operation, Width};
use sil_ast::{FuncId, List, Storage, ValueId};

/// An instruction of lowered code, without its terminators. Sizes and places are counted in leaves.
#[derive(Drop)]
pub enum ReadyOp {
    /// The value has to be there, and that is all.
    Look {
        value: ValueId,
    },
    /// The result is the integer.
    Literal {
        number: i64,
        to: Local,
    },
    /// The result stands for a function. It has no leaves: a call of it knows the function.
    Function {
        to: ValueId,
    },
    /// The result is what a builtin operation gives. `other` has to be there, and changes nothing.
    Compute {
        operation: Operation,
        width: Width,
        left: Local,
        right: Local,
        other: Option<ValueId>,
        to: Local,
    },
    /// The run ends with a trap where the operand is set.
    TrapWhereSet {
        operand: Local,
    },
    /// The result is a new object of the class with this place among the declarations.
    MakeObject {
        class: u32,
        to: Local,
    },
    /// The result is the address of a new slot with so many leaves.
    MakeSlot {
        size: u32,
        to: LocalAddress,
    },
    /// The newest slot of the frame goes.
    RemoveSlot {
        address: LocalAddress,
    },
    /// The result is the operand.
    Same {
        from: Local,
        to: Local,
    },
    /// The operand's references are made once more.
    Retain {
        operand: Local,
    },
    /// The operand's references are dropped.
    Drop {
        operand: Local,
    },
    /// The result is the value at the place.
    Load {
        address: LocalAddress,
        to: Local,
    },
    /// The value is put at the place.
    Store {
        from: Local,
        address: LocalAddress,
    },
    /// The result is the object that weak or unowned storage names. The storage is emptied where `takes` says so.
    LoadName {
        storage: Storage,
        takes: bool,
        address: LocalAddress,
        to: Local,
    },
    /// Weak or unowned storage is to name the object of the value. `first` says that it names none before.
    StoreName {
        storage: Storage,
        first: bool,
        from: Local,
        address: LocalAddress,
    },
    /// Weak or unowned storage is emptied.
    ForgetName {
        storage: Storage,
        address: LocalAddress,
    },
    /// The result has the operands as its members.
    Group {
        operands: List<Local>,
        to: Local,
    },
    /// The result is the case with this place, with its payload if it has one.
    Choose {
        case_index: u32,
        payload: Option<Local>,
        to: Local,
    },
    /// The result is the part of the operand whose leaves begin at `from`.
    Member {
        operand: Local,
        from: u32,
        to: Local,
    },
    /// The result is the address of the part whose leaves begin at `from` within the place.
    MemberAddress {
        address: LocalAddress,
        from: u32,
        to: LocalAddress,
    },
    /// The result is the address of the field with this place, of the operand's object.
    FieldAddress {
        operand: Local,
        field: u32,
        to: LocalAddress,
    },
    /// A function with a body is called. `operands` are all operands in their order, the callee first.
    Call {
        function: FuncId,
        operands: List<ValueId>,
        values: List<Carry>,
        addresses: List<CarryAddress>,
        to: Local,
    },
    /// A function without a body is called, with these integers.
    CallOut {
        function: FuncId,
        operands: List<ValueId>,
        args: List<Local>,
        to: Local,
    },
}
