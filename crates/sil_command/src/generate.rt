//! The answer of `generate` to the module that its text spells: what the runs of it and of the optimised module show.

ghost use Rattle.std.specs.Prelude.{◌≡◌, IfOk, codes, length};
ghost use Rattle.module_runner.specs.Entries.{HasEntry};
ghost use Rattle.module_runner.specs.inner.RunReports.{outcome_of};
ghost use Rattle.numbered_form.specs.inner.NumberedForm.{IsNumbered};
ghost use Rattle.sil_command.specs.Answers.{AnswersChecked};
ghost use Rattle.sil_command.specs.Generated as generated;
ghost use Rattle.sil_command.specs.Generated.{AnswersGenerated, Ran, RunsSo};
ghost use Rattle.sil_command.specs.Statuses.{code_of};
ghost use Rattle.module_runner.specs.copy_pairing_model.Counts as counts;
ghost use Rattle.sil_command_lines.specs.Summaries.{summary_text};
ghost use Rattle.sil_command.specs.declared.status.Status.TheVariants as status;

use crate::answer::Answer;
use crate::copies::copies_in;
use crate::run_words::DEFAULT_TURNS;
use crate::status::Status;
use crate::verified::answer_end;
use module_runner::{RunEnd, RunReport, optimised_if, run_checked};
use sil_ast::{Exhausted, Module};
use sil_command_lines::{Totals, summary};
use sil_verifier::{Checked, verify};
use std::alloc::Global;
use std::mem::forget;

/// The answer to a module with a `@main`: what is wrong with it, or the lines on its runs.
pub(crate) fn answer_generated(alloc: Global, module: Module) -> Result<Answer, Exhausted>
    requires numbered { IsNumbered «module» }
    requires main { HasEntry «module» (codes "main") }
    ensures { IfOk result (λ a. AnswersChecked «module» (AnswersGenerated «module») a.text.items (code_of a.status)) }
{
    match verify(alloc, module) {
        Ok(checked) => answer_runs(alloc, checked),
        Err(end) => answer_end(alloc, end),
    }
}

fn answer_runs(alloc: Global, checked: Checked) -> Result<Answer, Exhausted>
    requires { HasEntry checked (codes "main") }
    ensures { IfOk result (λ a. AnswersGenerated checked a.text.items (code_of a.status)) }
{
    match totals_of_run(alloc, &checked) {
        Ok(plain) => sum_up(alloc, checked, plain),
        Err(Exhausted) => {
            forget(checked);
            Err(Exhausted)
        }
    }
}

/// The lines, where this was shown by the module's own run. The module becomes the optimised one, which has a `@main` too.
fn sum_up(alloc: Global, checked: Checked, plain: Totals) -> Result<Answer, Exhausted>
    requires { (x : Ran) × RunsSo checked x × (plain ≡ generated.totals_of x) }
    ensures { IfOk result (λ a. AnswersGenerated checked a.text.items (code_of a.status)) }
{
    let functions = functions_of(&checked);
    let before = copies_of(&checked);
    let left = optimised_if(alloc, checked, true)?;
    let after = copies_of(&left);
    let answer = write_both(alloc, &left, functions, before, after, &plain);
    forget(left);
    answer
}

/// The lines, by what the optimised module's run shows.
fn write_both(
    alloc: Global,
    left: &Checked,
    functions: u64,
    before: u64,
    after: u64,
    plain: &Totals,
) -> Result<Answer, Exhausted>
    requires { HasEntry left.now (codes "main") }
    ensures { IfOk result (λ a. (y : Ran) × RunsSo left.now y
        × (a.text.items ≡ summary_text functions before after plain.now (generated.totals_of y)) × (a.status ≡ status.Done)) }
{
    let optimised = totals_of_run(alloc, left)?;
    write_lines(alloc, functions, before, after, plain, &optimised)
}

fn write_lines(
    alloc: Global,
    functions: u64,
    before: u64,
    after: u64,
    plain: &Totals,
    optimised: &Totals,
) -> Result<Answer, Exhausted>
    ensures text { IfOk result (λ a. a.text.items ≡ summary_text functions before after plain.now optimised.now) }
    ensures status { IfOk result (λ a. a.status ≡ status.Done) }
{
    Ok(Answer {
        text: summary(alloc, functions, before, after, plain, optimised)?,
        status: Status::Done,
    })
}

fn functions_of(checked: &Checked) -> u64
    ensures { result ≡ length checked.now.functions }
{
    checked.module().functions.len() as u64
}

fn copies_of(checked: &Checked) -> u64
    ensures { result ≡ counts.copies_of checked.now }
{
    copies_in(checked.module())
}

/// What the run of a module from `@main` shows.
fn totals_of_run(alloc: Global, checked: &Checked) -> Result<Totals, Exhausted>
    requires { HasEntry checked.now (codes "main") }
    ensures { IfOk result (λ totals. (x : Ran) × RunsSo checked.now x × (totals ≡ generated.totals_of x)) }
{
    match run_checked(alloc, checked, b"main", DEFAULT_TURNS, false) {
        Ok(report) => {
            let totals = totals_of(&report);
            forget(report);
            Ok(totals)
        }
        Err(RunEnd::NoEntry) => unreachable!(),
        Err(RunEnd::Memory) => Err(Exhausted),
    }
}

fn totals_of(report: &RunReport<'_>) -> Totals
    ensures { result ≡ generated.totals_of (outcome_of report.now) }
{
    Totals {
        events: report.events.len() as u64,
        retains: report.retains,
        releases: report.releases,
    }
}
