//! The answer to a module that isn't accepted: a text and a status for each end of the verifier. It decides nothing.

ghost use Rattle.std.specs.Prelude.{◌≡◌, IfOk};
ghost use Rattle.sil_ast.specs.declared.module.Module as any;
ghost use Rattle.sil_command.specs.declared.status.Status.TheVariants as status;
ghost use Rattle.sil_command.specs.Statuses.{code_of};
ghost use Rattle.sil_verifier.specs.inner.Ends.{IsVerifyEnd};
ghost use Rattle.sil_command.specs.Answers.{AnswersWrong};
ghost use Rattle.sil_command.specs.inner.ReportTexts.{report_text};
ghost use Rattle.sil_command_lines.specs.Texts.{type_limit_text};

use crate::answer::Answer;
use crate::refusal_lines;
use crate::status::Status;
use sil_ast::{Exhausted, Module};
use sil_rules::LimitWord;
use sil_verifier::{Refusal, VerifyEnd};
use std::alloc::Global;
use std::mem::forget;

/// The answer to a module with which the verifier ends so. Want of memory has none.
/// The module's memory is left to the system.
pub(crate) fn answer_end(alloc: Global, end: VerifyEnd) -> Result<Answer, Exhausted>
    ensures { (m : any.Module) → IsVerifyEnd m end → IfOk result (λ a. AnswersWrong m a.text.items (code_of a.status)) }
{
    match end {
        VerifyEnd::Refused { module, refusal } => {
            let answer = refused(alloc, &module, &refusal);
            forget(module);
            answer
        }
        VerifyEnd::Limit { module, what } => {
            forget(module);
            limit_passed(alloc, what)
        }
        VerifyEnd::Memory { module } => {
            forget(module);
            Err(Exhausted)
        }
    }
}

fn refused(alloc: Global, m: &Module, refusal: &Refusal) -> Result<Answer, Exhausted>
    ensures text { IfOk result (λ a. a.text.items ≡ report_text m.now refusal.now) }
    ensures status { IfOk result (λ a. a.status ≡ status.Refused) }
{
    Ok(Answer {
        text: refusal_lines::refusal(alloc, m, refusal)?,
        status: Status::Refused,
    })
}

fn limit_passed(alloc: Global, what: LimitWord) -> Result<Answer, Exhausted>
    ensures text { IfOk result (λ a. a.text.items ≡ type_limit_text what) }
    ensures status { IfOk result (λ a. a.status ≡ status.Limit) }
{
    Ok(Answer {
        text: sil_command_lines::type_limit(alloc, what)?,
        status: Status::Limit,
    })
}
