//! The top call: words and bytes in, bytes and a status out. What the answer is, is decided elsewhere.

ghost use Rattle.std.specs.Prelude.{◌≡◌, ◌⊎◌, ◌<◌, ℕ, List, map};
ghost use Rattle.sil_io.specs.Count.{MayFail};
ghost use Rattle.sil_io.specs.Reading.{TakesWithin};
ghost use Rattle.sil_rules.specs.declared.limits.TheConstants.{TEXT_BYTES};
ghost use Rattle.sil_command.specs.declared.status.Status.TheVariants.{ReadFault, WriteFault, OutOfMemory};
ghost use Rattle.sil_command.specs.Statuses.{code_of};
ghost use Rattle.sil_command.specs.Words.{AsksFor, IsAskedFor};
ghost use Rattle.sil_command.specs.GivenTexts.{AskForText, TakesSource};
ghost use Rattle.sil_command_lines.specs.Texts.{read_fault_text};
ghost use Rattle.sil_command.specs.Ends.{TakesText, Gains, GainsFront, WritesAnswer, Exhausts, WritesWhole};
ghost use Rattle.sil_command.specs.Ends.{WritesFrontOfAnswer, IsStatus, FinishesText, call_between, Ends};

use crate::answer::answer_to;
use crate::given_text::{answer_to_size, size_of};
use crate::status::Status;
use crate::words::{Mode, mode_of};
use sil_ast::Exhausted;
use sil_command_words::command_lines_say_one_thing;
use sil_io::{ReadEnd, Sink, Source, read_all, write_all};
use sil_rules::limits;
use std::alloc::Global;

/// Does what the words ask for: reads a text from the source, writes one answer to the sink, and answers the status.
///
/// The words are those after the program's name: `check`, `print`, `optimize`, `lower` with `--optimize`, `run` with `--turns N`,
/// `--entry NAME` and `--optimize`, or `generate N` (`docs/PROFILE.md`, "Command line and answers"). The statuses are 0 (done),
/// 1 (refused by a rule), 2 (not a command line), 3 (not a module), 4 (a read failed), 5 (a write failed), 6 (a run ended with a trap),
/// 7 (a run was out of turns), 8 (past a limit), 9 (no memory left; nothing was written) and 10 (no entry function of the name).
/// Of a text that spells a module all modes but `print` answer the first that is wrong with it, with a walk that shows it for a
/// rule on walks. Exactly where the module is within the limits and keeps all rules, `check` answers that it is accepted, `optimize` the
/// canonical text of the optimised module, `lower` that of its lowered form, and `run` the report of its run by holders; with the flag,
/// of the lowered form, or of the run, of the optimised module. No such run ends in a fault, nor does that of the lowered form. `print`
/// answers the module's canonical text. `generate` reads nothing: it makes a text, and sums up the runs of its module and of the
/// optimised one.
/// Of a text that spells none all answer what is wrong, and where.
/// The answer is built whole before the first byte of it is written, and after that no memory is taken.
pub fn command<'a, S: Source, K: Sink>(
    alloc: Global,
    words: &'a [&'a str],
    source: &mut S,
    out: &mut K,
) -> u8
    // Without faults, an allowed answer is written whole, or memory ran out.
    ensures answers { ¬ MayFail (S.faults source.old) (S.faults source.new) → ¬ MayFail (K.faults out.old) (K.faults out.new) →
        WritesAnswer (map (λ w. w.now) words.entry.now) (S.left source.old)
        (TakesText S.gave source.old source.new) (Gains K.held K.took out.old out.new) result
        ⊎ Exhausts (out.new ≡ out.old) result }
    // Words that are no command line, or ask for `generate`, need no source. Others take it to its end, or to the first byte past the
    // limit, and no further.
    ensures source_untouched { ¬ AskForText (map (λ w. w.now) words.entry.now) → source.new ≡ source.old }
    ensures takes { TakesWithin S.gave S.missed TEXT_BYTES source.old source.new }

    // The status of a failed read comes only with a fault of the source. With one, and none of the sink, the line on it is written
    // whole, or memory ran out.
    ensures read_fault_cause { result ≡ code_of ReadFault → MayFail (S.faults source.old) (S.faults source.new) }
    ensures read_fault { S.faults source.old < S.faults source.new → ¬ MayFail (K.faults out.old) (K.faults out.new) →
        WritesWhole (Gains K.held K.took out.old out.new) read_fault_text (code_of ReadFault) result ⊎ Exhausts (out.new ≡ out.old) result }

    // The status of a failed write comes only with a fault of the sink, and with each. Then a front of an allowed answer was written,
    // or of that line.
    ensures write_fault_cause { result ≡ code_of WriteFault → MayFail (K.faults out.old) (K.faults out.new) }
    ensures write_fault { K.faults out.old < K.faults out.new → result ≡ code_of WriteFault }
    ensures written_front { result ≡ code_of WriteFault →
        WritesFrontOfAnswer (map (λ w. w.now) words.entry.now) (S.left source.old)
        (TakesText S.gave source.old source.new) (GainsFront K.held K.took K.refused out.old out.new)
        ⊎ (MayFail (S.faults source.old) (S.faults source.new) × GainsFront K.held K.took K.refused out.old out.new read_fault_text) }

    // Where memory ran out nothing was written. There are no other statuses.
    ensures exhausted { result ≡ code_of OutOfMemory → out.new ≡ out.old }
    ensures statuses { IsStatus result }

    // The clauses above, but for those on the source alone, as one relation.
    ensures ends { Ends (call_between (map (λ w. w.now) words.entry.now) S.left S.gave S.faults
        source.old source.new K.held K.took K.refused K.faults out.old out.new) result }
{
    run(alloc, words, source, out)
}

/// What the call does, as one relation between what it was given and what it left.
fn run<'a, S: Source, K: Sink>(
    alloc: Global,
    words: &'a [&'a str],
    source: &mut S,
    out: &mut K,
) -> u8
    ensures ends { Ends (call_between (map (λ w. w.now) words.entry.now) S.left S.gave S.faults
        source.old source.new K.held K.took K.refused K.faults out.old out.new) result }
    ensures source_untouched { ¬ AskForText (map (λ w. w.now) words.entry.now) → source.new ≡ source.old }
    ensures takes { TakesWithin S.gave S.missed TEXT_BYTES source.old source.new }
{
    match mode_of(alloc, words) {
        Ok(Some(mode)) => answer_asked(alloc, mode, source, out),
        Ok(None) => finish(out, sil_command_lines::usage(), Status::Usage),
        Err(Exhausted) => Status::OutOfMemory.code(),
    }
}

/// Answers in this mode, to the text of the source or to its own.
fn answer_asked<S: Source, K: Sink>(alloc: Global, mode: Mode, source: &mut S, out: &mut K) -> u8
    requires { IsAskedFor mode }
    ensures ends { (words : List (List ℕ)) → AsksFor words mode → Ends (call_between words S.left S.gave S.faults
        source.old source.new K.held K.took K.refused K.faults out.old out.new) result }
    ensures source_untouched { ¬ TakesSource mode → source.new ≡ source.old }
    ensures takes { TakesWithin S.gave S.missed TEXT_BYTES source.old source.new }
{
    command_lines_say_one_thing();
    match size_of(&mode) {
        Some(size) => match answer_to_size(alloc, size) {
            Ok(answer) => finish(out, answer.text.as_slice(), answer.status),
            Err(Exhausted) => Status::OutOfMemory.code(),
        },
        None => answer_in(alloc, mode, source, out),
    }
}

/// Takes the text and answers it in this mode.
fn answer_in<S: Source, K: Sink>(alloc: Global, mode: Mode, source: &mut S, out: &mut K) -> u8
    requires asked { IsAskedFor mode }
    requires takes { TakesSource mode }
    ensures ends { (words : List (List ℕ)) → AsksFor words mode → Ends (call_between words S.left S.gave S.faults
        source.old source.new K.held K.took K.refused K.faults out.old out.new) result }
    ensures takes { TakesWithin S.gave S.missed TEXT_BYTES source.old source.new }
{
    match read_all(alloc, source, limits::TEXT_BYTES) {
        Ok(text) => match answer_to(alloc, mode, text) {
            Ok(answer) => finish(out, answer.text.as_slice(), answer.status),
            Err(Exhausted) => Status::OutOfMemory.code(),
        },
        Err(ReadEnd::TooLong) => finish(out, sil_command_lines::limit(), Status::Limit),
        Err(ReadEnd::Fault) => finish(out, sil_command_lines::read_fault(), Status::ReadFault),
        Err(ReadEnd::Memory) => Status::OutOfMemory.code(),
    }
}

/// Writes a whole text and answers its status, or that of a failed write.
fn finish<K: Sink>(out: &mut K, text: &[u8], status: Status) -> u8
    ensures { FinishesText (Gains K.held K.took out.old out.new) (GainsFront K.held K.took K.refused out.old out.new)
        (K.faults out.old) (K.faults out.new) text.now (code_of status) result }
{
    match write_all(out, text) {
        Ok(()) => status.code(),
        Err(_fault) => Status::WriteFault.code(),
    }
}
