//! The lines of a refusal: the first one, and behind it what is shown of a value.

ghost use Rattle.std.specs.Prelude.{◌≡◌, ◌++◌, IfOk, OnOk};
ghost use Rattle.std.specs.Option.{option_copied};
ghost use Rattle.sil_command.specs.inner.ReportTexts.{function_in, lines_behind, report_text};

use sil_ast::{Exhausted, FuncId, Function, Module};
use sil_command_lines::{push_shown, refused_line};
use sil_verifier::Refusal;
use std::alloc::Global;

/// The function with this number.
fn function_of(m: &Module, function: Option<FuncId>) -> Option<&Function>
    ensures { option_copied result ≡ function_in m.now function }
{
    match function {
        Some(function) => m.functions.get(function.0 as usize),
        None => None,
    }
}

fn push_behind(out: &mut Vec<u8>, m: &Module, refusal: &Refusal) -> Result<(), Exhausted>
    ensures { OnOk result (out.new.items ≡ out.old.items ++ lines_behind m.now refusal.now refusal.now.subject) }
{
    match refusal.subject {
        Some(subject) => push_shown(
            out,
            subject,
            refusal.other,
            refusal.rule,
            function_of(m, refusal.function),
            refusal.walk.as_slice(),
        ),
        None => Ok(()),
    }
}

/// The lines of a refusal.
pub(crate) fn refusal(alloc: Global, m: &Module, refusal: &Refusal) -> Result<Vec<u8>, Exhausted>
    ensures { IfOk result (λ text. text.items ≡ report_text m.now refusal.now) }
{
    let mut out = refused_line(
        alloc,
        m,
        refusal.rule,
        refusal.function,
        refusal.item,
        refusal.point,
    )?;
    push_behind(&mut out, m, refusal)?;
    Ok(out)
}
