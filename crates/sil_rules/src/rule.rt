//! The rules that a module may break, in their order, with the numbers and names that a refusal prints.

ghost use Rattle.std.specs.Prelude.{◌≡◌, ◌<◌};
ghost use Rattle.sil_rules.specs.Rules.{group_of, index_of, name_of, number_of, rule_at};

use crate::group::Group;

/// A rule, said by how it is broken.
#[derive(Clone, Copy, Debug, PartialEq, Eq)]
pub enum Rule {
    /// 101: a type, the type before a member's name, or a vtable's class isn't declared.
    UnknownType,
    /// 102: a struct or enum holds itself without a class between.
    InfiniteType,
    /// 103: a member isn't one of its type, or an entry of a vtable names another class.
    BadMember,
    /// 104: a weak or unowned reference stands elsewhere than in storage, or isn't one to a class.
    WeakOrUnownedOutsideStorage,
    /// 201: an operand is written with another type than its value has, or its type doesn't suit the instruction.
    OperandType,
    /// 202: an instruction has another number of results than its form.
    ResultCount,
    /// 203: the arguments of an edge aren't those of its block, in number or type.
    EdgeArguments,
    /// 204: the callee of `apply` isn't the result of a `function_ref`.
    Callee,
    /// 205: a function without a body takes more than plain builtin integers, or gives a result.
    External,
    /// 206: a convention doesn't suit its type, or an entry, a call or a `return` differs from the signature.
    Signature,
    /// 207: an instruction, an annotation or a function isn't of the form that the first function with a body has.
    MixedForms,
    /// 208: a deinitialiser has no body or another signature.
    DeinitSignature,
    /// 209: the cases of a `switch_enum`, or its blocks and their arguments, aren't those of the enum.
    SwitchCases,
    /// 210: an argument of a block other than the entry is an address.
    AddressEscapes,
    /// 211: an edge goes to the entry.
    EntryHasPredecessor,
    /// 212: a qualifier isn't one of the instruction for the type and the form.
    Qualifier,
    /// 301: a value is an operand before its definition.
    Undefined,
    /// 302: a chain of forwarded, copied or borrowed values returns to the value at which it began.
    CyclicForwarding,
    /// 303: one forwarding instruction has owned and guaranteed operands.
    MixedForwarding,
    /// 304: an operand has an ownership kind that the instruction doesn't take.
    KindMismatch,
    /// 305: a block's argument has another ownership kind than the values that reach it.
    ArgumentKind,
    /// 401: an owned value is used while it isn't held.
    UseAfterConsume,
    /// 402: an owned value is consumed while it isn't held.
    DoubleConsume,
    /// 403: a `return` with an owned value held.
    Leak,
    /// 404: an owned value is defined again while it is held.
    Overwritten,
    /// 501: a value is an operand while a borrow scope that it rests on is closed.
    UseOutsideScope,
    /// 502: a closed scope ends.
    EndTwice,
    /// 503: a `return` with a scope open.
    ScopeLeft,
    /// 504: a value ends while a borrow of it is open.
    ConsumedWhileBorrowed,
    /// 505: a scope begins again while it is open.
    ScopeOverwritten,
    /// 601: a location is read, assigned, taken, or handed to a call that needs it full, while it isn't initialised.
    LoadUninitialised,
    /// 602: an initialised location is initialised again.
    InitTwice,
    /// 603: a stack slot is deallocated, or a `return` finds the location of an `@in` argument, while it holds a nontrivial value.
    LeftInitialised,
    /// 604: a slot is allocated twice, or deallocated while it isn't the last one allocated.
    StackOrder,
    /// 605: a `return` with a slot allocated.
    StackLeft,
    /// 606: a location is written, taken, deallocated, or handed to a call that may change it, while an overlapping borrow is open.
    WriteWhileBorrowed,
    /// 607: a new object is used before all of its fields are written.
    FieldNotBuilt,
    /// 608: two locations that one call is handed overlap, and it may change one of them.
    InoutOverlap,
    /// 609: a `return` with the location of an `@inout` or `@out` argument not initialised.
    InoutLeftUninitialised,
    /// 610: an address is an operand while its scope is closed or its slot isn't allocated.
    AddressOutsideScope,
    /// 611: an operation that a part of a location doesn't have, or a `dealloc_stack` of anything but a slot.
    PartialAccess,
}

/// How many rules there are.
pub const RULE_COUNT: usize = 41;

/// The number of each rule, in order.
const NUMBERS: [u16; RULE_COUNT] = [
    101, 102, 103, 104, 201, 202, 203, 204, 205, 206, 207, 208, 209, 210, 211, 212, 301, 302, 303,
    304, 305, 401, 402, 403, 404, 501, 502, 503, 504, 505, 601, 602, 603, 604, 605, 606, 607, 608,
    609, 610, 611,
];

/// The name of each rule, in order.
const NAMES: [&[u8]; RULE_COUNT] = [
    b"UnknownType",
    b"InfiniteType",
    b"BadMember",
    b"WeakOrUnownedOutsideStorage",
    b"OperandType",
    b"ResultCount",
    b"EdgeArguments",
    b"Callee",
    b"External",
    b"Signature",
    b"MixedForms",
    b"DeinitSignature",
    b"SwitchCases",
    b"AddressEscapes",
    b"EntryHasPredecessor",
    b"Qualifier",
    b"Undefined",
    b"CyclicForwarding",
    b"MixedForwarding",
    b"KindMismatch",
    b"ArgumentKind",
    b"UseAfterConsume",
    b"DoubleConsume",
    b"Leak",
    b"Overwritten",
    b"UseOutsideScope",
    b"EndTwice",
    b"ScopeLeft",
    b"ConsumedWhileBorrowed",
    b"ScopeOverwritten",
    b"LoadUninitialised",
    b"InitTwice",
    b"LeftInitialised",
    b"StackOrder",
    b"StackLeft",
    b"WriteWhileBorrowed",
    b"FieldNotBuilt",
    b"InoutOverlap",
    b"InoutLeftUninitialised",
    b"AddressOutsideScope",
    b"PartialAccess",
];

/// The group of each rule, in order.
const GROUPS: [Group; RULE_COUNT] = [
    Group::Declarations,
    Group::Finiteness,
    Group::Declarations,
    Group::Declarations,
    Group::Typing,
    Group::Typing,
    Group::Typing,
    Group::Typing,
    Group::Typing,
    Group::Typing,
    Group::Typing,
    Group::Deinitialisers,
    Group::Typing,
    Group::Typing,
    Group::Typing,
    Group::Typing,
    Group::Definitions,
    Group::Kinds,
    Group::Kinds,
    Group::Kinds,
    Group::Kinds,
    Group::Lifetimes,
    Group::Lifetimes,
    Group::Lifetimes,
    Group::Lifetimes,
    Group::Scopes,
    Group::Scopes,
    Group::Scopes,
    Group::Scopes,
    Group::Scopes,
    Group::Memory,
    Group::Memory,
    Group::Memory,
    Group::Memory,
    Group::Memory,
    Group::Memory,
    Group::Memory,
    Group::Memory,
    Group::Memory,
    Group::Memory,
    Group::Memory,
];

/// All rules, in the order of their numbers.
pub static RULES: [Rule; RULE_COUNT] = [
    Rule::UnknownType,
    Rule::InfiniteType,
    Rule::BadMember,
    Rule::WeakOrUnownedOutsideStorage,
    Rule::OperandType,
    Rule::ResultCount,
    Rule::EdgeArguments,
    Rule::Callee,
    Rule::External,
    Rule::Signature,
    Rule::MixedForms,
    Rule::DeinitSignature,
    Rule::SwitchCases,
    Rule::AddressEscapes,
    Rule::EntryHasPredecessor,
    Rule::Qualifier,
    Rule::Undefined,
    Rule::CyclicForwarding,
    Rule::MixedForwarding,
    Rule::KindMismatch,
    Rule::ArgumentKind,
    Rule::UseAfterConsume,
    Rule::DoubleConsume,
    Rule::Leak,
    Rule::Overwritten,
    Rule::UseOutsideScope,
    Rule::EndTwice,
    Rule::ScopeLeft,
    Rule::ConsumedWhileBorrowed,
    Rule::ScopeOverwritten,
    Rule::LoadUninitialised,
    Rule::InitTwice,
    Rule::LeftInitialised,
    Rule::StackOrder,
    Rule::StackLeft,
    Rule::WriteWhileBorrowed,
    Rule::FieldNotBuilt,
    Rule::InoutOverlap,
    Rule::InoutLeftUninitialised,
    Rule::AddressOutsideScope,
    Rule::PartialAccess,
];

impl Rule {
    /// The place in the order, from 0.
    pub fn index(self) -> u8
        ensures { result ≡ index_of self }
    {
        self as u8
    }

    /// The rule at a place in the order.
    pub fn at(index: u8) -> Rule
        requires { index < RULE_COUNT }
        ensures { result ≡ rule_at index }
    {
        RULES[index as usize]
    }

    /// The number that a refusal prints, from 101 to 611.
    pub fn number(self) -> u16
        ensures { result ≡ number_of self }
    {
        NUMBERS[self as usize]
    }

    /// The name that a refusal prints.
    pub fn name(self) -> &'static [u8]
        ensures { result.now ≡ name_of self }
    {
        NAMES[self as usize]
    }

    /// The group with which it is looked for.
    pub fn group(self) -> Group
        ensures { result ≡ group_of self }
    {
        GROUPS[self as usize]
    }
}
