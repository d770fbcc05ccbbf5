//! The report of a run of lowered code, as an answer.

ghost use Rattle.std.specs.Prelude.{◌≡◌};
ghost use Rattle.holder_model.specs.RunTyping.Runnable.{IsRunnable};
ghost use Rattle.sil_types_declarations.specs.TypeDefinitions.Declarations.{declarations_of};

use crate::answer::Answer;
use count_machine::{LowEnd, LowRun};
use holder_model::LowFault;
use module_runner_report::{Ending, RunOutcome, write_report};
use sil_ast::{Exhausted, Module, TypeName};
use sil_types::TypeTable;
use std::alloc::Global;

/// Adds the report of a run that began at a function which gives this type, and gives the status. The events are told or left out.
pub(crate) fn add_run(
    alloc: Global,
    m: &Module,
    table: &TypeTable,
    result_type: &TypeName,
    run: LowRun,
    tells_events: bool,
    written: &mut Answer,
) -> Result<u8, Exhausted>
    requires runnable { IsRunnable m.now }
    requires of_it { table.now ≡ declarations_of m.now }
{
    let LowRun {
        events,
        ending,
        left,
        retains,
        releases,
        heap: _heap,
    } = run;
    let fault = fault_in(&ending);
    let (ending, status) = reported(ending);
    let outcome = RunOutcome {
        events: if tells_events { events.as_slice() } else { &[] },
        ending: &ending,
        left: left.as_slice(),
        retains,
        releases,
    };
    add_outcome(
        alloc,
        m,
        table,
        result_type,
        &outcome,
        fault,
        status,
        written,
    )
}

fn add_outcome(
    alloc: Global,
    m: &Module,
    table: &TypeTable,
    result_type: &TypeName,
    outcome: &RunOutcome<'_>,
    fault: Option<LowFault>,
    status: u8,
    written: &mut Answer,
) -> Result<u8, Exhausted>
    requires runnable { IsRunnable m.now }
    requires of_it { table.now ≡ declarations_of m.now }
{
    let report = write_report(alloc, m, table, result_type, outcome)?;
    match fault {
        Some(fault) => add_with_fault(written, report.as_slice(), fault),
        None => written.add_bytes(report.as_slice()),
    }
    Ok(status)
}

fn fault_in(end: &LowEnd) -> Option<LowFault> {
    match end {
        LowEnd::Fault(fault) => Some(*fault),
        _ => None,
    }
}

/// The ending that is reported, and the status: 0 behind a return, 6 behind a trap, 7 out of turns, and 12 behind a fault. A report has
/// no line for a fault, which takes the place of another ending.
fn reported(end: LowEnd) -> (Ending, u8) {
    match end {
        LowEnd::Returned(value) => (Ending::Returned(value), 0),
        LowEnd::Trap(trap) => (Ending::Trap(trap), 6),
        LowEnd::OutOfTurns => (Ending::OutOfTurns, 7),
        LowEnd::Fault(_) => (Ending::OutOfTurns, 12),
    }
}

/// Adds the report of a run out of turns, with the line of a fault in the place of its ending.
fn add_with_fault(written: &mut Answer, report: &[u8], fault: LowFault) {
    if let Ok(report) = str::from_utf8(report) {
        if let Some((events, counts)) = report.split_once("out of turns\n") {
            written.add(events);
            add_fault(written, fault);
            written.add("\n");
            written.add(counts);
        }
    }
}

/// Adds `fault underflow #0 count 0`, `fault dead #0`, `fault empty`, `fault missing %0` or `fault slot`.
fn add_fault(written: &mut Answer, fault: LowFault) {
    match fault {
        LowFault::Underflow { object, count } => {
            written.add_number("fault underflow #", object.0);
            written.add_number(" count ", count);
        }
        LowFault::Dead { object } => written.add_number("fault dead #", object.0),
        LowFault::Empty => written.add("fault empty"),
        LowFault::Missing { value } => {
            written.add_number("fault missing %", u64::from(value.0));
        }
        LowFault::Slot => written.add("fault slot"),
    }
}
