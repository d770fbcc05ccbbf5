//! The answer to a text that isn't read: a line and a status for each reason that the reader gives.
//! It knows of no module and no rule.

ghost use Rattle.std.specs.Prelude.{◌≡◌, IfOk};
ghost use Rattle.sil_grammar.specs.declared.refusal.ReadRefusal.TheVariants.{Lex};
ghost use Rattle.sil_command.specs.declared.status.Status.TheVariants.{NotAModule, Limit};
ghost use Rattle.sil_command.specs.Statuses.{code_of};
ghost use Rattle.sil_command.specs.Reading.{AnswersRefusal};
ghost use Rattle.sil_command_lines.specs.Texts.{not_a_module_text, passed_limit_text};

use crate::answer::Answer;
use crate::status::Status;
use sil_ast::{Exhausted, Place};
use sil_grammar::ReadRefusal;
use sil_lexer::LexRefusal;
use sil_rules::LimitWord;
use std::alloc::Global;

/// The answer to a text that is refused for this reason. Want of memory has none.
pub(crate) fn answer_refusal(alloc: Global, reason: ReadRefusal) -> Result<Answer, Exhausted>
    ensures { IfOk result (λ a. AnswersRefusal reason a.text.items (code_of a.status)) }
{
    match reason {
        ReadRefusal::Lex(stop) => answer_stop(alloc, stop),
        ReadRefusal::Unexpected(place) => not_a_module(alloc, b"unexpected", place),
        ReadRefusal::Unsupported(place) => not_a_module(alloc, b"unsupported", place),
        ReadRefusal::NumberRange(place) => not_a_module(alloc, b"number out of range", place),
        ReadRefusal::Limit { what, place } => passed_limit(alloc, what, place),
        ReadRefusal::Twice(place) => not_a_module(alloc, b"defined twice", place),
        ReadRefusal::UnknownName(place) => not_a_module(alloc, b"unknown name", place),
        ReadRefusal::Memory => Err(Exhausted),
    }
}

fn answer_stop(alloc: Global, stop: LexRefusal) -> Result<Answer, Exhausted>
    ensures { IfOk result (λ a. AnswersRefusal (Lex stop) a.text.items (code_of a.status)) }
{
    match stop {
        LexRefusal::BadByte(place) => not_a_module(alloc, b"bad byte", place),
        LexRefusal::UnclosedText(place) => not_a_module(alloc, b"unclosed text", place),
        LexRefusal::NameTooLong(place) => passed_limit(alloc, LimitWord::Name, place),
    }
}

fn not_a_module(alloc: Global, what: &[u8], place: Place) -> Result<Answer, Exhausted>
    ensures text { IfOk result (λ a. a.text.items ≡ not_a_module_text what.now place) }
    ensures status { IfOk result (λ a. a.status ≡ NotAModule) }
{
    Ok(Answer {
        text: sil_command_lines::not_a_module(alloc, what, place)?,
        status: Status::NotAModule,
    })
}

fn passed_limit(alloc: Global, what: LimitWord, place: Place) -> Result<Answer, Exhausted>
    ensures text { IfOk result (λ a. a.text.items ≡ passed_limit_text what place) }
    ensures status { IfOk result (λ a. a.status ≡ Limit) }
{
    Ok(Answer {
        text: sil_command_lines::passed_limit(alloc, what, place)?,
        status: Status::Limit,
    })
}
