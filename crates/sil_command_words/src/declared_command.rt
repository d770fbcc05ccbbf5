//! The command as `clap` is told of it.

ghost use Rattle.std.specs.Prelude.{◌≡◌, IfOk};
ghost use Rattle.clap.specs.Words.{app_of};
ghost use Rattle.sil_command_words.specs.inner.ClapCommand.{declared_app};

use clap::{Arg, ArgAction, Command};
use std::alloc::{AllocError, Global};

/// A mode, which has to be there, a number, which doesn't, two options with a value each, and a flag. There is no flag for help, and none for the version.
pub fn declared_command<'a>(alloc: Global) -> Result<Command<'a>, AllocError>
    ensures { IfOk result (λ command. app_of command ≡ declared_app) }
{
    let mode = Arg::new(alloc, "mode").required(true);
    let number = Arg::new(alloc, "number");
    let turns = Arg::new(alloc, "turns").long("turns");
    let entry = Arg::new(alloc, "entry").long("entry");
    let optimize = Arg::new(alloc, "optimize")
        .long("optimize")
        .action(ArgAction::SetTrue);
    Command::new(alloc, "sil")
        .no_binary_name(true)
        .disable_help_flag(true)
        .arg(mode)?
        .arg(number)?
        .arg(turns)?
        .arg(entry)?
        .arg(optimize)
}
