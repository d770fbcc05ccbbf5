//! How pieces of text are put at the end of a growing text: numbers, and lists of what has a text of its own.

ghost use Rattle.std.specs.Prelude.{◌≡◌, ◌++◌, ℕ, List, OnOk, decimal};
ghost use Rattle.std.specs.Fmt.{signed_decimal};
ghost use Rattle.sil_printer.specs.Words.{separator_before, listed, in_parens, parens_if_any, each_behind, indented, if_set, opening};

use sil_ast::Exhausted;

/// A value whose text needs nothing else of its module.
pub(crate) trait Canonical {
    ghost text: { Self → List ℕ };

    /// Puts the text at the end.
    fn push_to(&self, out: &mut Vec<u8>) -> Result<(), Exhausted>
        ensures { OnOk result (out.new.items ≡ out.old.items ++ text self.now) };
}

pub(crate) fn push_each<T: Canonical>(
    out: &mut Vec<u8>,
    lead: &[u8],
    items: &[T],
) -> Result<(), Exhausted>
    ensures { OnOk result (out.new.items ≡ out.old.items ++ each_behind lead.now T.text items.now) }
{
    for item in items {
        out.extend_from_slice(lead)?;
        item.push_to(out)?;
    }
    Ok(())
}

pub(crate) fn push_indented<T: Canonical>(out: &mut Vec<u8>, items: &[T]) -> Result<(), Exhausted>
    ensures { OnOk result (out.new.items ≡ out.old.items ++ indented T.text items.now) }
{
    for item in items {
        out.extend_from_slice(b"  ")?;
        item.push_to(out)?;
        out.push(b'\n')?;
    }
    Ok(())
}

pub(crate) fn push_separator(out: &mut Vec<u8>, separator: &[u8], i: usize) -> Result<(), Exhausted>
    ensures { OnOk result (out.new.items ≡ out.old.items ++ separator_before separator.now i) }
{
    if i > 0 {
        out.extend_from_slice(separator)?;
    }
    Ok(())
}

fn push_listed<T: Canonical>(out: &mut Vec<u8>, items: &[T]) -> Result<(), Exhausted>
    ensures { OnOk result (out.new.items ≡ out.old.items ++ listed T.text items.now) }
{
    for (i, item) in items.iter().enumerate() {
        push_separator(out, b", ", i)?;
        item.push_to(out)?;
    }
    Ok(())
}

pub(crate) fn push_in_parens<T: Canonical>(out: &mut Vec<u8>, items: &[T]) -> Result<(), Exhausted>
    ensures { OnOk result (out.new.items ≡ out.old.items ++ in_parens T.text items.now) }
{
    out.push(b'(')?;
    push_listed(out, items)?;
    out.push(b')')?;
    Ok(())
}

pub(crate) fn push_parens_if_any<T: Canonical>(
    out: &mut Vec<u8>,
    items: &[T],
) -> Result<(), Exhausted>
    ensures { OnOk result (out.new.items ≡ out.old.items ++ parens_if_any T.text items.now) }
{
    if items.is_empty() {
        return Ok(());
    }
    push_in_parens(out, items)
}

pub(crate) fn push_bytes(out: &mut Vec<u8>, bytes: &[u8]) -> Result<(), Exhausted>
    ensures { OnOk result (out.new.items ≡ out.old.items ++ bytes.now) }
{
    out.extend_from_slice(bytes)?;
    Ok(())
}

/// Puts a word where its flag is set.
pub(crate) fn push_if_set(out: &mut Vec<u8>, word: &[u8], flag: bool) -> Result<(), Exhausted>
    ensures { OnOk result (out.new.items ≡ out.old.items ++ if_set word.now flag) }
{
    if flag { push_bytes(out, word) } else { Ok(()) }
}

/// Puts the first line of what stands in braces: `class C {`.
pub(crate) fn push_opening(out: &mut Vec<u8>, word: &[u8], name: &[u8]) -> Result<(), Exhausted>
    ensures { OnOk result (out.new.items ≡ out.old.items ++ opening word.now name.now) }
{
    push_bytes(out, word)?;
    push_bytes(out, name)?;
    push_bytes(out, b" {\n")
}

pub(crate) fn push_decimal(out: &mut Vec<u8>, number: u64) -> Result<(), Exhausted>
    ensures { OnOk result (out.new.items ≡ out.old.items ++ decimal number) }
{
    let digits = number.to_string(*out.allocator())?;
    out.extend_from_slice(digits.as_bytes())?;
    Ok(())
}

pub(crate) fn push_signed(out: &mut Vec<u8>, number: i64) -> Result<(), Exhausted>
    ensures { OnOk result (out.new.items ≡ out.old.items ++ signed_decimal number) }
{
    let digits = number.to_string(*out.allocator())?;
    out.extend_from_slice(digits.as_bytes())?;
    Ok(())
}
