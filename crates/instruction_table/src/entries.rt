//! What the columns of the table of instructions say.

/// How many results an instruction has.
#[derive(Clone, Copy, PartialEq, Eq)]
pub enum Results {
    NoResult,
    /// One: `%0 = alloc_ref $Node`. It may be left without a name.
    OneResult,
    /// A list in parentheses, of as many as its operand has parts: `(%1, %2) = destructure_struct %0 : $Pair`.
    ResultList,
}

/// What comes behind an instruction.
#[derive(Clone, Copy, PartialEq, Eq)]
pub enum Ending {
    /// The next instruction: this one ends no block.
    Inside,
    /// A block, with arguments: `br bb1(%0 : $Node)`.
    OneBranch,
    /// One of two blocks, with arguments: `cond_br %0, bb1, bb2`.
    TwoBranches,
    /// The block of a case, or of the default: `switch_enum %0 : $Answer, case #Answer.yes!enumelt: bb1, default bb2`.
    Cases,
    /// The caller: `return %0 : $Node`.
    Return,
    /// Nothing: `unreachable`.
    Unreachable,
}

/// Which words may stand in brackets, as `[copy]`. None needs to.
#[derive(Clone, Copy, PartialEq, Eq)]
pub enum Words {
    NoWord,
    /// Any of them.
    AnyWord,
    /// `[take]` alone.
    TakeWord,
    /// `[init]` alone.
    InitWord,
}

/// What the number, the text or the member of an instruction says. No instruction has two of these.
#[derive(Clone, Copy, PartialEq, Eq)]
pub enum Detail {
    NoDetail,
    /// A number of the width of the instruction's type.
    Literal,
    /// The number of a tuple's element, from 0 to 63.
    Element,
    /// The name of a builtin operation, as a text.
    Operation,
    /// Any text.
    Message,
    /// A field: `#Pair.first`.
    Field,
    /// A case: `#Answer.yes!enumelt`.
    Case,
}

/// Whether an instruction counts for one value more than it defines, since lowering it takes one.
#[derive(Clone, Copy, PartialEq, Eq)]
pub enum ExtraValue {
    Never,
    /// With the word `[assign]`.
    WhereAssigned,
    Always,
}

/// In functions of which form an instruction may stand.
#[derive(Clone, Copy, PartialEq, Eq)]
pub enum InForms {
    BothForms,
    /// With `[ossa]` alone.
    OwnershipForm,
    /// Without `[ossa]` alone.
    LoweredForm,
    /// In both: with a word in brackets as `[copy]` where there is `[ossa]`, and without one where there isn't.
    ByWord,
    /// In both where its operand is the address of weak or unowned storage, else with `[ossa]` alone.
    ByStorage,
}

/// Which words in brackets an instruction takes, by the type at its address.
#[derive(Clone, Copy, PartialEq, Eq)]
pub enum TypeWords {
    /// Those that it may have, for any type.
    AnyType,
    /// `[copy]` and `[take]` for a type that isn't trivial, `[trivial]` for one that is.
    ReadWords,
    /// `[init]` and `[assign]` for a type that isn't trivial, `[trivial]` for one that is.
    WriteWords,
}

/// What the operands stand for that have no written type.
#[derive(Clone, Copy, PartialEq, Eq)]
pub enum BareOperands {
    /// There are none.
    NoBare,
    /// The first: a value of the type at the address behind it.
    StoredValue,
    /// The first: a value for the weak storage at the address behind it.
    WeakValue,
    /// The first: a value for the unowned storage at the address behind it.
    UnownedValue,
    /// The first: a bit.
    Condition,
    /// The function that is called, and then its arguments.
    Arguments,
}

/// What an instruction does to an operand.
#[derive(Clone, Copy, PartialEq, Eq)]
pub enum Role {
    /// It consumes it: an Owned value ends here.
    Consumed,
    /// It uses it, of whatever kind.
    Used,
    /// It uses it, and it may not be Owned.
    Lent,
    /// It forwards it: an Owned value ends here, and the results are of its kind.
    Forwarded,
    /// It is an address.
    AddressRole,
    /// It is a value or an address.
    AnyRole,
    /// It is a scope itself, which ends here.
    ScopeRole,
    /// As the convention of the argument says: consumed for `@owned`, an address for `@inout`, `@in`, `@in_guaranteed` and `@out`, else used.
    ByParameter,
    /// Its references are counted, which only lowered functions do.
    Counted,
}

/// Of what kind results are that aren't of a trivial type.
#[derive(Clone, Copy, PartialEq, Eq)]
pub enum ResultKind {
    /// None, or there are no results.
    NoneResult,
    OwnedResult,
    /// Guaranteed, and a scope of its own.
    ScopeResult,
    AddressResult,
    /// Of the kind of the operands, which are forwarded.
    ForwardedResult,
    /// Of the operand's kind, which stays as it is.
    OperandResult,
}
