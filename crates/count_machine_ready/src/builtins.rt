//! The builtin operation that an instruction names.

ghost use Rattle.std.specs.Prelude.{◌≡◌, bytes_eq, find, map, option_and_then, option_map};
ghost use Rattle.std.specs.List.{flat_map};
ghost use Rattle.std.specs.Option.{option_copied};
ghost use Rattle.instruction_table.specs.BuiltinNames.BuiltinNames as names;
ghost use Rattle.instruction_table.specs.declared.builtin_names.names.Width.{Width};
ghost use Rattle.sil_types.specs.Typing.Builtins as builtins;
ghost use Rattle.sil_types.specs.Typing.Builtins.{at_width, at_widths};
ghost use Rattle.count_machine_ready.specs.inner.BuiltinsTold.{builtin_told, is_spelled_by, is_width_text};

use instruction_table::{Operation, Width, operation_spelling, width_spelling};
use sil_ast::Inst;

/// An operation at a width.
#[derive(Clone, Copy)]
pub(crate) struct BuiltinAt {
    pub operation: Operation,
    pub width: Width,
}

/// The text behind the operation and `_Int`, where the name begins with these.
fn width_text(name: &[u8], operation: Operation) -> Option<&[u8]>
    ensures { (width : Width) → is_width_text (option_copied result) width ≡ bytes_eq name.now (names.builtin_name operation width) }
{
    let Some(rest) = name.strip_prefix(operation_spelling(operation)) else {
        return None;
    };
    let Some(text) = rest.strip_prefix(b"_Int") else {
        return None;
    };
    Some(text)
}

fn spells(text: &[u8], width: Width) -> bool
    ensures { result ≡ bytes_eq text.now (names.width_spelling width) }
{
    text == width_spelling(width)
}

/// The operation at the first of the widths that the text spells.
fn spelled_at(text: &[u8], operation: Operation, widths: &[Width]) -> Option<BuiltinAt>
    ensures { option_map builtin_told result ≡ find (is_spelled_by text.now) (map (at_width operation) widths.now) }
{
    for width in widths {
        if spells(text, *width) {
            return Some(BuiltinAt {
                operation,
                width: *width,
            });
        }
    }
    None
}

/// The first of the widths at which the name is the operation's.
fn named_at_width(name: &[u8], operation: Operation) -> Option<BuiltinAt>
    ensures { option_map builtin_told result ≡ find (builtins.is_named name.now) (at_widths operation) }
{
    let Some(text) = width_text(name, operation) else {
        return None;
    };
    spelled_at(
        text,
        operation,
        &[
            Width::Int1,
            Width::Int8,
            Width::Int16,
            Width::Int32,
            Width::Int64,
        ],
    )
}

fn named_among(name: &[u8], operations: &[Operation]) -> Option<BuiltinAt>
    ensures { option_map builtin_told result ≡ find (builtins.is_named name.now) (flat_map at_widths operations.now) }
{
    for operation in operations {
        if let Some(found) = named_at_width(name, *operation) {
            return Some(found);
        }
    }
    None
}

/// The operation, at a width, that a text names.
fn builtin_named(name: &[u8]) -> Option<BuiltinAt>
    ensures { option_map builtin_told result ≡ builtins.builtin_named name.now }
{
    named_among(
        name,
        &[
            Operation::AddWithOverflow,
            Operation::SubWithOverflow,
            Operation::MulWithOverflow,
            Operation::Equal,
            Operation::NotEqual,
            Operation::Less,
            Operation::LessOrEqual,
            Operation::Greater,
            Operation::GreaterOrEqual,
            Operation::And,
            Operation::Or,
            Operation::Xor,
        ],
    )
}

/// The operation that an instruction names.
pub(crate) fn builtin_in(inst: &Inst) -> Option<BuiltinAt>
    ensures { option_map builtin_told result ≡ option_and_then builtins.builtin_named inst.now.text }
{
    match &inst.text {
        Some(name) => builtin_named(name.get().as_slice()),
        None => None,
    }
}
