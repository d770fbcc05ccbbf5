//! Calls that take an accepted module.

ghost use Rattle.numbered_form.specs.inner.NumberedForm.{IsNumbered};

use crate::answer::Answer;
use crate::modules::module_of;
use crate::places::{function_named, point_named};
use copy_pairing::{Removal, removable};
use ownership_lowering::{Checked, VerifyEnd, lower, verify};
use sil_ast::{Exhausted, Module};
use sil_printer::print;
use sil_rules::Status;
use std::alloc::Global;

/// Answers what a call does to the module that the text spells, where that keeps all rules.
pub(crate) fn answer_on_accepted(
    alloc: Global,
    words: &[&str],
    text: &[u8],
    written: &mut Answer,
) -> Result<u8, Exhausted> {
    match module_of(alloc, text)? {
        Some(m) => answer_on_verified(alloc, words, m, written),
        None => Ok(written.line("not a module", 1)),
    }
}

fn answer_on_verified(
    alloc: Global,
    words: &[&str],
    m: Module,
    written: &mut Answer,
) -> Result<u8, Exhausted>
    requires { IsNumbered m }
{
    match verify(alloc, m) {
        Ok(checked) => answer_on_checked(alloc, words, &checked, written),
        Err(VerifyEnd::Memory { module: _module }) => Err(Exhausted),
        Err(_end) => Ok(written.line("not accepted", 1)),
    }
}

fn answer_on_checked(
    alloc: Global,
    words: &[&str],
    checked: &Checked,
    written: &mut Answer,
) -> Result<u8, Exhausted> {
    match words {
        [_name, "removable", function, point] => {
            answer_on_copy(alloc, function, point, checked, written)
        }
        [_name, "lowered"] => answer_lowered(alloc, checked, written),
        [_name, "cloned"] => answer_cloned(alloc, checked, written),
        _ => Ok(written.line("no such call", Status::Usage.code())),
    }
}

/// The text of the lowered module.
fn answer_lowered(alloc: Global, checked: &Checked, written: &mut Answer) -> Result<u8, Exhausted> {
    let lowered = lower(alloc, checked)?;
    add_module(alloc, &lowered, written)
}

/// The text of a clone.
fn answer_cloned(alloc: Global, checked: &Checked, written: &mut Answer) -> Result<u8, Exhausted> {
    let cloned = checked.try_clone(alloc)?;
    add_module(alloc, cloned.module(), written)
}

/// Adds the canonical text of a module.
fn add_module(alloc: Global, m: &Module, written: &mut Answer) -> Result<u8, Exhausted> {
    let text = print(alloc, m)?;
    written.add_bytes(text.as_slice());
    Ok(0)
}

/// How the copy at a point of a function can go.
fn answer_on_copy(
    alloc: Global,
    function: &str,
    point: &str,
    checked: &Checked,
    written: &mut Answer,
) -> Result<u8, Exhausted> {
    let Some(function) = function_named(checked.module(), function) else {
        return Ok(written.line("no such function", 1));
    };
    let Some(point) = point_named(point) else {
        return Ok(written.line("no such point", 1));
    };
    let removal = removable(alloc, checked, function, point)?;
    Ok(written.line(removal_name(removal), 0))
}

fn removal_name(removal: Removal) -> &'static str {
    match removal {
        Removal::No => "No",
        Removal::Borrow => "Borrow",
        Removal::Move => "Move",
    }
}
