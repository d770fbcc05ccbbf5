//! What the words of a command line say.

ghost use Rattle.std.specs.Prelude.{◌≡◌, IfOk, MatchOption, None, codes, map, option_map};
ghost use Rattle.clap.specs.Words.{first_value, found_of};
ghost use Rattle.sil_command_words.specs.CommandLines.{IsCommandLine, Says};
ghost use Rattle.sil_command_words.specs.inner.ClapCommand.{Matches};

use crate::declared_command::declared_command;
use clap::ArgMatches;
use clap::error::ErrorKind;
use sil_ast::Exhausted;
use std::alloc::Global;

/// What a command line says, as it is spelled.
#[derive(Clone, Copy)]
pub struct CommandWords<'a> {
    /// The word that names the mode.
    pub mode: &'a str,
    /// The word behind it that stands by itself too.
    pub number: Option<&'a str>,
    /// The value of `--turns`.
    pub turns: Option<&'a str>,
    /// The value of `--entry`.
    pub entry: Option<&'a str>,
    /// Whether `--optimize` is there.
    pub optimize: bool,
}

/// What these words say, or none where they are no command line. The program's name isn't among them.
pub fn read_words<'a>(
    alloc: Global,
    words: &'a [&'a str],
) -> Result<Option<CommandWords<'a>>, Exhausted>
    ensures { IfOk result (λ read. MatchOption read (¬ IsCommandLine (map (λ w. w.now) words.entry.now))
        (λ r. Says (map (λ w. w.now) words.entry.now) r.mode.now (option_map (λ v. v.now) r.number) (option_map (λ v. v.now) r.turns)
        (option_map (λ v. v.now) r.entry) r.optimize)) }
{
    match declared_command(alloc)?.try_get_matches_from(words) {
        Ok(matches) => Ok(matched_words(&matches)),
        Err(error) if error.kind() == ErrorKind::OutOfMemory => Err(Exhausted),
        Err(_) => Ok(None),
    }
}

/// The words that were matched, where the mode is among them.
fn matched_words<'a>(matches: &ArgMatches<'a>) -> Option<CommandWords<'a>>
    ensures { MatchOption result (first_value (found_of matches.now) (codes "mode") ≡ None)
        (λ r. Matches (found_of matches.now) r.mode.now (option_map (λ v. v.now) r.number) (option_map (λ v. v.now) r.turns)
        (option_map (λ v. v.now) r.entry) r.optimize) }
{
    Some(CommandWords {
        mode: matches.get_str("mode")?,
        number: matches.get_str("number"),
        turns: matches.get_str("turns"),
        entry: matches.get_str("entry"),
        optimize: matches.get_flag("optimize"),
    })
}
