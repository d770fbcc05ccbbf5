//! The report of a run.

ghost use Rattle.std.specs.Prelude.{◌≡◌, ◌++◌, IfOk, OnOk};
ghost use Rattle.holder_model.specs.RunTyping.Runnable.{IsRunnable};
ghost use Rattle.holder_model_values.specs.RunValues.Shapes.{shape_of};
ghost use Rattle.sil_types_declarations.specs.TypeDefinitions.Declarations.{declarations_of};
ghost use Rattle.holder_model.specs.RunReport.ReportLines.{report};
ghost use Rattle.module_runner_report.specs.RunOutcomes.{outcome_of};
ghost use Rattle.module_runner_report.specs.inner.Texts.{AreOfRunnable, ending_text, returned_text};

use crate::lines::{push_counts, push_events, push_left, push_trap};
use crate::outcome::{Ending, RunOutcome};
use crate::pieces::push_bytes;
use crate::values::{Names, push_value};
use holder_model_values::Val;
use sil_ast::{Exhausted, Module, Text, TypeName};
use sil_types::TypeTable;
use std::alloc::Global;

/// The report of a run, as `docs/RUNS.md` has it under "The report". A value that was returned is written as one of
/// `result_type`, the type of what the entry function gives. Fails where memory runs out.
pub fn write_report(
    alloc: Global,
    m: &Module,
    table: &TypeTable,
    result_type: &TypeName,
    outcome: &RunOutcome<'_>,
) -> Result<Text, Exhausted>
    requires runnable { IsRunnable m.now }
    requires of_it { table.now ≡ declarations_of m.now }
    ensures { IfOk result (λ text. text ≡ report m.now (shape_of table.now result_type.now) (outcome_of outcome.now)) }
{
    let mut out = Vec::new(alloc);
    let names = Names {
        table,
        left: outcome.left,
    };
    push_events(&mut out, m, outcome.events)?;
    push_ending(&mut out, &names, result_type, outcome.ending)?;
    push_counts(&mut out, outcome.retains, outcome.releases)?;
    Text::from_vec(alloc, out)
}

/// Puts how the run ended, and after a return the objects that are left.
fn push_ending(
    out: &mut Vec<u8>,
    names: &Names<'_>,
    result_type: &TypeName,
    ending: &Ending,
) -> Result<(), Exhausted>
    requires { AreOfRunnable names.now.table.now }
    ensures { OnOk result (out.new.items ≡ out.old.items ++ ending_text names.now.table.now names.now.left.now result_type.now ending.now) }
{
    match ending {
        Ending::Returned(value) => push_returned(out, names, result_type, value),
        Ending::Trap(trap) => push_trap(out, trap),
        Ending::OutOfTurns => push_bytes(out, b"out of turns\n"),
    }
}

/// Puts the value that was returned, and the objects that are left.
fn push_returned(
    out: &mut Vec<u8>,
    names: &Names<'_>,
    result_type: &TypeName,
    value: &Val,
) -> Result<(), Exhausted>
    requires { AreOfRunnable names.now.table.now }
    ensures { OnOk result (out.new.items ≡ out.old.items ++ returned_text names.now.table.now names.now.left.now result_type.now value.now) }
{
    push_bytes(out, b"returned ")?;
    push_value(out, names, value, result_type)?;
    push_bytes(out, b"\n")?;
    push_left(out, names.left)
}
