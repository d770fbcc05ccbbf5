//! What becomes of an instruction in lowered code.

/// What an instruction is lowered to, but for the new numbers of values.
#[derive(Clone, Copy, PartialEq, Eq)]
pub enum Lowering {
    /// The same instruction.
    Stays,
    /// Nothing. A result that it had is another name for its operand.
    Vanishes,
    /// A retain of its operand. Its result is another name for that.
    Retains,
    /// A release of its operand.
    Releases,
    /// A `load` without a word. With `[copy]` a retain of what was loaded stands behind it.
    Loads,
    /// A `store` without a word. With `[assign]` what the place held is loaded before it, and released behind it.
    Stores,
    /// A `load` of what the place holds, and its release. At weak or unowned storage it is the same instruction.
    Destroys,
    /// For each field a `struct_extract`, in order.
    ExtractsFields,
    /// For each element a `tuple_extract`, in order.
    ExtractsElements,
}
