//! The words of a command line: which mode they ask for.

ghost use Rattle.std.specs.Prelude.{◌≡◌, IfOk, MatchOption, None, Some, codes, map, option_map};
ghost use Rattle.sil_command.specs.declared.words.Mode.{Mode};
ghost use Rattle.sil_command.specs.Words.{AsksFor, IsCommandLine, Takes, word_of};

use crate::run_words::{bound_of, entry_name};
use crate::size_words::written_size;
use sil_ast::{Exhausted, Text};
use sil_command_words::{CommandWords, command_lines_say_one_thing, read_words};
use std::alloc::Global;

/// What is done with the module that a text spells.
#[derive(Drop)]
pub enum Mode {
    /// Its rules are checked.
    Check,
    /// Its canonical text is written, and no rule is checked.
    Print,
    /// Its rules are checked, and what lowering makes of it is written, or of the optimised module.
    Lower {
        optimise: bool,
    },
    /// Its rules are checked, and the optimised module is written.
    Optimize,
    /// Its rules are checked, and what lowering makes of it, or of the optimised module, is run, from the function with this name, for this
    /// bound on turns.
    Run {
        entry: Text,
        turns: u32,
        optimise: bool,
    },
    /// No text is read: that of a module with this many functions besides `main` is made. Its rules are checked, what lowering makes of it
    /// and of the optimised module is run, and both runs are summed up.
    Generate {
        size: u32,
    },
}

/// The mode that the words ask for, or none where they are no command line.
pub fn mode_of<'a>(alloc: Global, words: &'a [&'a str]) -> Result<Option<Mode>, Exhausted>
    ensures { IfOk result (λ found. MatchOption found (¬ IsCommandLine (map (λ w. w.now) words.entry.now)) (AsksFor (map (λ w. w.now) words.entry.now))) }
{
    command_lines_say_one_thing();
    match read_words(alloc, words)? {
        Some(said) => mode_said(alloc, said),
        None => Ok(None),
    }
}

/// The mode that is said, if it takes the number and the options that are given.
fn mode_said(alloc: Global, said: CommandWords<'_>) -> Result<Option<Mode>, Exhausted>
    ensures { IfOk result (λ found. MatchOption found
        ((mode : Mode) → said.entry.mode.now ≡ word_of mode
        → ¬ Takes mode (option_map (λ v. v.now) said.entry.number) (option_map (λ v. v.now) said.entry.turns)
        (option_map (λ v. v.now) said.entry.entry) said.entry.optimize)
        (λ mode. (said.entry.mode.now ≡ word_of mode)
        × Takes mode (option_map (λ v. v.now) said.entry.number) (option_map (λ v. v.now) said.entry.turns)
        (option_map (λ v. v.now) said.entry.entry) said.entry.optimize)) }
{
    if said.mode == "run" && said.number.is_none() {
        return run_mode(alloc, said.turns, said.entry, said.optimize);
    }
    if said.turns.is_some() || said.entry.is_some() {
        return Ok(None);
    }
    match said.number {
        Some(digits) => Ok(numbered_mode(said.mode, digits, said.optimize)),
        None => Ok(mode_named(said.mode, said.optimize)),
    }
}

fn run_mode(
    alloc: Global,
    turns: Option<&str>,
    entry: Option<&str>,
    optimise: bool,
) -> Result<Option<Mode>, Exhausted>
    ensures { IfOk result (λ found. MatchOption found
        ((mode : Mode) → word_of mode ≡ codes "run"
        → ¬ Takes mode None (option_map (λ v. v.now) turns.entry) (option_map (λ v. v.now) entry.entry) optimise)
        (λ mode. (word_of mode ≡ codes "run")
        × Takes mode None (option_map (λ v. v.now) turns.entry) (option_map (λ v. v.now) entry.entry) optimise)) }
{
    let Some(turns) = bound_of(turns) else {
        return Ok(None);
    };
    let entry = Text::from_slice(alloc, entry_name(entry).as_bytes())?;
    Ok(Some(Mode::Run {
        entry,
        turns,
        optimise,
    }))
}

/// The mode of this word that takes this number, and no options.
fn numbered_mode(word: &str, digits: &str, optimise: bool) -> Option<Mode>
    ensures { MatchOption result ((mode : Mode) → word.now ≡ word_of mode → ¬ Takes mode (Some digits.now) None None optimise)
        (λ mode. (word.now ≡ word_of mode) × Takes mode (Some digits.now) None None optimise) }
{
    if word != "generate" || optimise {
        return None;
    }
    let size = written_size(digits)?;
    Some(Mode::Generate { size })
}

/// The mode of this word that takes no number and no value of an option, but maybe the flag.
fn mode_named(word: &str, optimise: bool) -> Option<Mode>
    requires { ¬ word.now ≡ codes "run" }
    ensures { MatchOption result ((mode : Mode) → word.now ≡ word_of mode → ¬ Takes mode None None None optimise)
        (λ mode. (word.now ≡ word_of mode) × Takes mode None None None optimise) }
{
    match word {
        "lower" => Some(Mode::Lower { optimise }),
        _ if optimise => None,
        "check" => Some(Mode::Check),
        "print" => Some(Mode::Print),
        "optimize" => Some(Mode::Optimize),
        _ => None,
    }
}
