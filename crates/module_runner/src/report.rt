//! What is reported of a run.

ghost use Rattle.std.specs.Prelude.{◌≡◌, IfOk};
ghost use Rattle.module_runner_report.specs.RunOutcomes as told;
ghost use Rattle.module_runner.specs.inner.RunReports.{IsReportable, outcome_of, text_of};

use count_heap::Heap;
use holder_model::{Event, LeftObject};
use module_runner_report::{Ending, RunOutcome, write_report};
use sil_ast::{Exhausted, List, Module, Text, TypeName};
use sil_types::TypeTable;
use std::alloc::Global;

/// A run of an accepted module that has ended.
#[derive(Drop)]
pub struct RunReport<'c> {
    /// The lowered module, which ran.
    pub module: Module,
    /// What it declares.
    pub table: &'c TypeTable,
    /// The type of what the entry function gives, by its signature.
    pub result_type: TypeName,
    /// In the order in which they happened.
    pub events: List<Event>,
    pub ending: Ending,
    /// After a return the objects that aren't freed, in the order of their numbers. After any other ending none are told.
    pub left: List<LeftObject>,
    pub retains: u64,
    pub releases: u64,
    /// The heap on which the run was made.
    pub heap: Heap,
}

impl RunReport<'_> {
    fn outcome(&self) -> RunOutcome<'_>
        ensures { told.outcome_of result ≡ outcome_of self.now }
    {
        RunOutcome {
            events: self.events.as_slice(),
            ending: &self.ending,
            left: self.left.as_slice(),
            retains: self.retains,
            releases: self.releases,
        }
    }
}

/// The lines of a report, as `docs/RUNS.md` has them. Every report of `run_checked` may be asked for its lines.
pub fn report_text(alloc: Global, r: &RunReport<'_>) -> Result<Text, Exhausted>
    requires { IsReportable r.now }
    ensures { IfOk result (λ text. text ≡ text_of r.now) }
{
    write_report(alloc, &r.module, r.table, &r.result_type, &r.outcome())
}
