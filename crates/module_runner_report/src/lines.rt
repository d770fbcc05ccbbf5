//! The lines of a report but for that of a returned value.

ghost use Rattle.std.specs.Prelude.{◌≡◌, ◌++◌, OnOk, codes};
ghost use Rattle.std.specs.Fmt.{signed_decimal};
ghost use Rattle.std.specs.List.{flat_map};
ghost use Rattle.holder_model.specs.RunReport.ReportLines.{count_line, event_line, left_lines, name_of, object_line, phase_words, trap_words};
ghost use Rattle.sil_printer.specs.Words.{in_parens, line};

use crate::pieces::{push_bytes, push_number, push_separator, push_signed};
use crate::values::push_object;
use holder_model::{Event, LeftObject, Trap};
use sil_ast::{Exhausted, FuncId, Module};

pub(crate) fn push_events(out: &mut Vec<u8>, m: &Module, events: &[Event]) -> Result<(), Exhausted>
    ensures { OnOk result (out.new.items ≡ out.old.items ++ flat_map (event_line m.now) events.now) }
{
    for event in events {
        push_event(out, m, event)?;
    }
    Ok(())
}

/// Puts `call @show(1, -2)` or `deinit Node#0`.
fn push_event(out: &mut Vec<u8>, m: &Module, event: &Event) -> Result<(), Exhausted>
    ensures { OnOk result (out.new.items ≡ out.old.items ++ event_line m.now event.now) }
{
    match event {
        Event::Call { function, args } => {
            push_bytes(out, b"call @")?;
            push_bytes(out, function_name(m, *function))?;
            push_integers(out, args.as_slice())?;
        }
        Event::Deinit { class_name, object } => {
            push_bytes(out, b"deinit ")?;
            push_object(out, class_name.as_slice(), *object)?;
        }
    }
    push_bytes(out, b"\n")
}

fn function_name(m: &Module, function: FuncId) -> &[u8]
    ensures { result.now ≡ name_of m.now function }
{
    match m.functions.get(function.0 as usize) {
        Some(function) => function.name.as_slice(),
        None => &[],
    }
}

/// Puts integers in parentheses.
fn push_integers(out: &mut Vec<u8>, numbers: &[i64]) -> Result<(), Exhausted>
    ensures { OnOk result (out.new.items ≡ out.old.items ++ in_parens signed_decimal numbers.now) }
{
    push_bytes(out, b"(")?;
    for (i, number) in numbers.iter().enumerate() {
        push_separator(out, i)?;
        push_signed(out, *number)?;
    }
    push_bytes(out, b")")
}

pub(crate) fn push_trap(out: &mut Vec<u8>, trap: &Trap) -> Result<(), Exhausted>
    ensures { OnOk result (out.new.items ≡ out.old.items ++ line (codes "trap " ++ trap_words trap.now)) }
{
    match trap {
        Trap::CondFail(message) => {
            push_bytes(out, b"trap cond_fail \"")?;
            push_bytes(out, message.as_slice())?;
            push_bytes(out, b"\"\n")
        }
        Trap::Unreachable => push_bytes(out, b"trap unreachable\n"),
        Trap::Unowned => push_bytes(out, b"trap unowned\n"),
        Trap::Escaped => push_bytes(out, b"trap escaped\n"),
        Trap::Depth => push_bytes(out, b"trap depth\n"),
    }
}

/// Puts how many objects are left, and a line for each.
pub(crate) fn push_left(out: &mut Vec<u8>, left: &[LeftObject]) -> Result<(), Exhausted>
    ensures { OnOk result (out.new.items ≡ out.old.items ++ left_lines left.now) }
{
    push_number(out, b"objects ", left.len() as u64)?;
    push_bytes(out, b"\n")?;
    for object in left {
        push_left_object(out, object)?;
    }
    Ok(())
}

/// Puts `object Node#0 live strong 1 unowned 0 weak 0`.
fn push_left_object(out: &mut Vec<u8>, x: &LeftObject) -> Result<(), Exhausted>
    ensures { OnOk result (out.new.items ≡ out.old.items ++ object_line x.now) }
{
    push_bytes(out, b"object ")?;
    push_object(out, x.class_name.as_slice(), x.object)?;
    push_bytes(out, phase(x.live))?;
    push_number(out, b" strong ", x.strong)?;
    push_number(out, b" unowned ", x.unowned)?;
    push_number(out, b" weak ", x.weak)?;
    push_bytes(out, b"\n")
}

fn phase(live: bool) -> &'static [u8]
    ensures { result.now ≡ phase_words live }
{
    if live { b" live" } else { b" dead" }
}

pub(crate) fn push_counts(out: &mut Vec<u8>, retains: u64, releases: u64) -> Result<(), Exhausted>
    ensures { OnOk result (out.new.items ≡ out.old.items ++ count_line retains releases) }
{
    push_number(out, b"retains ", retains)?;
    push_number(out, b" releases ", releases)?;
    push_bytes(out, b"\n")
}
