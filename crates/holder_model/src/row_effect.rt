//! What an instruction does in a run.

/// What an instruction does beside ending and using its operands, which its roles say. Where it reads or writes a place, which of these
/// it is and what becomes of the place is said by its access and its word in brackets.
#[derive(Clone, Copy, PartialEq, Eq)]
pub enum RowEffect {
    /// Nothing. Where it ends a block, control goes on.
    NoEffect,
    /// The result is the literal.
    GivesLiteral,
    /// The result stands for the function that is named.
    GivesFunction,
    /// The result is what the builtin operation gives of the operands.
    Computes,
    /// The run ends with a trap where the operand is set.
    TrapsWhereSet,
    /// The result is a new object, whose fields are empty.
    MakesObject,
    /// The result is the address of a new slot, which is empty.
    MakesSlot,
    /// The newest slot of the frame goes.
    RemovesSlot,
    /// The result is the operand.
    GivesOperand,
    /// The result is the operand, with references that are made anew.
    CopiesOperand,
    /// The operand's references are made once more.
    RetainsOperand,
    /// The operand's references are dropped.
    DropsOperand,
    /// The result is the value at the place.
    LoadsValue,
    /// The value is put at the place. An old value's references are dropped where the place has to be full.
    StoresValue,
    /// The place is emptied, and its value's references are dropped.
    DestroysPlace,
    /// The result is the object that the storage names, with a reference that is made anew, where it is live.
    LoadsName,
    /// The result has the operands as its members.
    Groups,
    /// The result is the case that is named, with the operand as its payload.
    ChoosesCase,
    /// The result is the member that is named.
    GivesMember,
    /// The results are all members.
    GivesMembers,
    /// The result is the address of the member that is named.
    AddressesMember,
    /// The result is the address of the field that is named, of the operand's object.
    AddressesField,
    /// The function that the first operand stands for is called with the others.
    CallsFunction,
}
