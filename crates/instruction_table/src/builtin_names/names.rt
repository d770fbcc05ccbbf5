//! The names of builtin operations, as a text spells them. What the operations do is not said here.

ghost use Rattle.std.specs.Prelude.{◌≡◌, bytes_eq};
ghost use Rattle.instruction_table.specs.BuiltinNames.BuiltinNames.{operation_spelling, width_spelling, widths, builtin_name, names_operation, is_builtin_name};

/// An operation on integers of one width.
#[derive(Clone, Copy)]
pub enum Operation {
    AddWithOverflow,
    SubWithOverflow,
    MulWithOverflow,
    Equal,
    NotEqual,
    Less,
    LessOrEqual,
    Greater,
    GreaterOrEqual,
    And,
    Or,
    Xor,
}

/// The width of a builtin integer, in bits.
#[derive(Clone, Copy)]
pub enum Width {
    Int1,
    Int8,
    Int16,
    Int32,
    Int64,
}

/// How an operation is spelled.
#[tactic(auto, unfolding(crate::specs::BuiltinNames::BuiltinNames::operation_spelling))]
pub fn operation_spelling(operation: Operation) -> &'static [u8]
    ensures { result.now ≡ operation_spelling operation }
{
    match operation {
        Operation::AddWithOverflow => b"sadd_with_overflow",
        Operation::SubWithOverflow => b"ssub_with_overflow",
        Operation::MulWithOverflow => b"smul_with_overflow",
        Operation::Equal => b"cmp_eq",
        Operation::NotEqual => b"cmp_ne",
        Operation::Less => b"cmp_slt",
        Operation::LessOrEqual => b"cmp_sle",
        Operation::Greater => b"cmp_sgt",
        Operation::GreaterOrEqual => b"cmp_sge",
        Operation::And => b"and",
        Operation::Or => b"or",
        Operation::Xor => b"xor",
    }
}

/// How a width is spelled.
#[tactic(auto, unfolding(crate::specs::BuiltinNames::BuiltinNames::width_spelling))]
pub fn width_spelling(width: Width) -> &'static [u8]
    ensures { result.now ≡ width_spelling width }
{
    match width {
        Width::Int1 => b"1",
        Width::Int8 => b"8",
        Width::Int16 => b"16",
        Width::Int32 => b"32",
        Width::Int64 => b"64",
    }
}

/// Whether the name is the operation's at the width.
fn is_named(name: &[u8], operation: Operation, width: Width) -> bool
    ensures { result ≡ bytes_eq name.now (builtin_name operation width) }
{
    let Some(rest) = name.strip_prefix(operation_spelling(operation)) else {
        return false;
    };
    let Some(digits) = rest.strip_prefix(b"_Int") else {
        return false;
    };
    digits == width_spelling(width)
}

#[tactic(auto, unfolding(crate::specs::BuiltinNames::BuiltinNames::names_operation))]
fn names_operation(name: &[u8], operation: Operation) -> bool
    ensures { result ≡ names_operation name.now operation }
{
    let widths: &[Width] = &[
        Width::Int1,
        Width::Int8,
        Width::Int16,
        Width::Int32,
        Width::Int64,
    ];
    widths.iter().any(|width| is_named(name, operation, *width))
}

/// Whether a text names a builtin operation.
#[tactic(auto, unfolding(crate::specs::BuiltinNames::BuiltinNames::is_builtin_name))]
pub fn is_builtin_name(name: &[u8]) -> bool
    ensures { result ≡ is_builtin_name name.now }
{
    let operations: &[Operation] = &[
        Operation::AddWithOverflow,
        Operation::SubWithOverflow,
        Operation::MulWithOverflow,
        Operation::Equal,
        Operation::NotEqual,
        Operation::Less,
        Operation::LessOrEqual,
        Operation::Greater,
        Operation::GreaterOrEqual,
        Operation::And,
        Operation::Or,
        Operation::Xor,
    ];
    operations
        .iter()
        .any(|operation| names_operation(name, *operation))
}
