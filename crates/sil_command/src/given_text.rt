//! The mode that takes no text from a source: it makes one, and answers that.

ghost use Rattle.std.specs.Prelude.{◌≡◌, IfOk, MatchOption};
ghost use Rattle.sil_command_generator.specs.GeneratedModules.{generated};
ghost use Rattle.sil_command.specs.declared.words.Mode.TheVariants.{Generate};
ghost use Rattle.sil_command.specs.Answers.{AnswersText};
ghost use Rattle.sil_command.specs.GivenTexts.{TakesSource};
ghost use Rattle.sil_command.specs.Statuses.{code_of};
ghost use Rattle.sil_command.specs.Words.{IsAskedFor};

use crate::answer::Answer;
use crate::generate::answer_generated;
use crate::laws::generated_modules_have_main;
use crate::reading::answer_refusal;
use crate::words::Mode;
use sil_ast::Exhausted;
use sil_command_generator::{
    generated_modules_are_numbered, generated_text, generated_texts_are_short,
};
use sil_grammar::read_owned;
use sil_printer_laws::printed_modules_are_spelled;
use std::alloc::Global;

/// How many functions the mode makes besides `@main`, if it takes no text from a source.
pub(crate) fn size_of(mode: &Mode) -> Option<u32>
    ensures { MatchOption result (TakesSource mode.now) (λ size. mode.now ≡ Generate size) }
{
    match mode {
        Mode::Check => None,
        Mode::Print => None,
        Mode::Lower { optimise: _ } => None,
        Mode::Optimize => None,
        Mode::Run {
            entry: _,
            turns: _,
            optimise: _,
        } => None,
        Mode::Generate { size } => Some(*size),
    }
}

/// The answer of `generate` to its own text, which is read as that of a source is. It spells the generated module and no other.
pub(crate) fn answer_to_size(alloc: Global, size: u32) -> Result<Answer, Exhausted>
    requires { IsAskedFor (Generate size) }
    ensures { IfOk result (λ a. AnswersText (Generate size) (generated size) a.text.items (code_of a.status)) }
{
    generated_modules_are_numbered();
    generated_texts_are_short();
    generated_modules_have_main();
    printed_modules_are_spelled();
    let text = generated_text(alloc, size)?.into_vec(alloc)?;
    match read_owned(alloc, text) {
        Ok(module) => answer_generated(alloc, module),
        Err(reason) => answer_refusal(alloc, reason),
    }
}
