//! Where a type stands.

/// Where a module mentions a type. What may stand there decides whether weak and unowned storage is misplaced.
#[derive(Clone, Copy, Debug, PartialEq, Eq)]
pub enum Standing {
    /// Where only an object's type may stand: of a strong field, a payload, a parameter, a result, or an instruction.
    Object,
    /// Behind the colon of a `weak` field.
    WeakField,
    /// Behind the colon of an `unowned` field.
    UnownedField,
    /// Behind `alloc_stack`.
    Slot,
    /// Of an operand or a block's argument, which may be an address.
    Value,
    /// Nowhere in the text: the type that is declared, that a signature gives, or of a `tuple` instruction's operands.
    Unwritten,
}
