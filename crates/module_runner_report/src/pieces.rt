//! How pieces of text are put at the end of a growing text.

ghost use Rattle.std.specs.Prelude.{◌≡◌, ◌++◌, OnOk, codes, decimal};
ghost use Rattle.std.specs.Fmt.{signed_decimal};
ghost use Rattle.sil_printer.specs.Words.{separator_before};

use sil_ast::Exhausted;

pub(crate) fn push_bytes(out: &mut Vec<u8>, bytes: &[u8]) -> Result<(), Exhausted>
    ensures { OnOk result (out.new.items ≡ out.old.items ++ bytes.now) }
{
    out.extend_from_slice(bytes)?;
    Ok(())
}

pub(crate) fn push_signed(out: &mut Vec<u8>, number: i64) -> Result<(), Exhausted>
    ensures { OnOk result (out.new.items ≡ out.old.items ++ signed_decimal number) }
{
    let digits = number.to_string(*out.allocator())?;
    push_bytes(out, digits.as_bytes())
}

/// Puts a number behind some words.
pub(crate) fn push_number(out: &mut Vec<u8>, words: &[u8], number: u64) -> Result<(), Exhausted>
    ensures { OnOk result (out.new.items ≡ out.old.items ++ (words.now ++ decimal number)) }
{
    push_bytes(out, words)?;
    let digits = number.to_string(*out.allocator())?;
    push_bytes(out, digits.as_bytes())
}

/// Puts a comma and a space before the i-th of some items, and nothing before the first.
pub(crate) fn push_separator(out: &mut Vec<u8>, i: usize) -> Result<(), Exhausted>
    ensures { OnOk result (out.new.items ≡ out.old.items ++ separator_before (codes ", ") i) }
{
    if i > 0 {
        push_bytes(out, b", ")
    } else {
        Ok(())
    }
}
