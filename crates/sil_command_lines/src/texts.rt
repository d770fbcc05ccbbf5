//! The lines that are told by one word or by a place in the text.

ghost use Rattle.std.specs.Prelude.{◌≡◌, ◌++◌, IfOk, OnOk, decimal};
ghost use Rattle.sil_command_lines.specs.Texts.{usage_text, limit_text, read_fault_text, accepted_text, no_entry_text, place_words};
ghost use Rattle.sil_command_lines.specs.Texts.{not_a_module_text, passed_limit_text, rule_words, type_limit_text};

use sil_ast::{Exhausted, Place};
use sil_rules::{LimitWord, Rule};
use std::alloc::Global;

/// The line for words that are no command line.
pub fn usage() -> &'static [u8]
    ensures { result.now ≡ usage_text }
{
    b"usage: sil check, print, lower, optimize, run or generate N [--turns N] [--entry NAME] [--optimize]\n"
}

/// The line for a text of too many bytes.
pub fn limit() -> &'static [u8]
    ensures { result.now ≡ limit_text }
{
    b"limit text\n"
}

/// The line for a source that failed.
pub fn read_fault() -> &'static [u8]
    ensures { result.now ≡ read_fault_text }
{
    b"read fault\n"
}

/// The line for a module that keeps the rules.
pub fn accepted() -> &'static [u8]
    ensures { result.now ≡ accepted_text }
{
    b"accepted\n"
}

/// The line for a module that has no entry function of this name.
pub fn no_entry(alloc: Global, name: &[u8]) -> Result<Vec<u8>, Exhausted>
    ensures { IfOk result (λ text. text.items ≡ no_entry_text name.now) }
{
    let mut out = Vec::from_slice(alloc, b"no entry ")?;
    out.extend_from_slice(name)?;
    out.push(b'\n')?;
    Ok(out)
}

pub(crate) fn push_number(out: &mut Vec<u8>, number: u32) -> Result<(), Exhausted>
    ensures { OnOk result (out.new.items ≡ out.old.items ++ decimal number) }
{
    let digits = number.to_string(*out.allocator())?;
    out.extend_from_slice(digits.as_bytes())?;
    Ok(())
}

fn push_place(out: &mut Vec<u8>, place: Place) -> Result<(), Exhausted>
    ensures { OnOk result (out.new.items ≡ out.old.items ++ place_words place) }
{
    out.extend_from_slice(b" at ")?;
    push_number(out, place.line)?;
    out.push(b':')?;
    push_number(out, place.column)?;
    Ok(())
}

/// The line for a text that spells no module: what is wrong with it, and where.
pub fn not_a_module(alloc: Global, what: &[u8], place: Place) -> Result<Vec<u8>, Exhausted>
    ensures { IfOk result (λ text. text.items ≡ not_a_module_text what.now place) }
{
    let mut out = Vec::from_slice(alloc, b"not a module: ")?;
    out.extend_from_slice(what)?;
    push_place(&mut out, place)?;
    out.push(b'\n')?;
    Ok(out)
}

/// The line for a text in which a token passes a limit: the limit, and where.
pub fn passed_limit(alloc: Global, what: LimitWord, place: Place) -> Result<Vec<u8>, Exhausted>
    ensures { IfOk result (λ text. text.items ≡ passed_limit_text what place) }
{
    let mut out = Vec::from_slice(alloc, b"limit ")?;
    out.extend_from_slice(what.word())?;
    push_place(&mut out, place)?;
    out.push(b'\n')?;
    Ok(out)
}

pub(crate) fn push_rule(out: &mut Vec<u8>, rule: Rule) -> Result<(), Exhausted>
    ensures { OnOk result (out.new.items ≡ out.old.items ++ rule_words rule) }
{
    out.extend_from_slice(b"refused ")?;
    push_number(out, u32::from(rule.number()))?;
    out.push(b' ')?;
    out.extend_from_slice(rule.name())?;
    Ok(())
}

/// The line for a module with a type past a limit, which has no place.
pub fn type_limit(alloc: Global, what: LimitWord) -> Result<Vec<u8>, Exhausted>
    ensures { IfOk result (λ text. text.items ≡ type_limit_text what) }
{
    let mut out = Vec::from_slice(alloc, b"limit ")?;
    out.extend_from_slice(what.word())?;
    out.push(b'\n')?;
    Ok(out)
}
