//! What follows from the definition of answers, on calls that do nothing.

ghost use Rattle.std.specs.Prelude.{ℕ, codes};
ghost use Rattle.module_runner.specs.Entries.{HasEntry};
ghost use Rattle.sil_command_generator.specs.GeneratedModules.{generated_module};
ghost use Rattle.sil_command.specs.Laws.{AreAcceptedExactly, AreLoweredExactly, AreOptimisedExactly, ArePrintedExactly, ArePrintedReadBack};
ghost use Rattle.sil_command.specs.Laws.{AreGeneratedExactly, AreRefusedForTheFirst, AreReportedRightly, AreRunExactly, HaveNoEntryExactly};

use module_runner::{names_have_one_entry, one_module_is_lowered, runs_end_once};
use sil_command_generator::{generated_modules_are_numbered, generated_texts_are_short};
use sil_command_words::command_lines_say_one_thing;
use sil_grammar::{spelled_modules_are_numbered, spelled_once};
use sil_printer_laws::printed_modules_are_spelled;
use sil_verifier_accepted::accepted_where_nothing_is_found;

/// `check` answers a text that spells an accepted module with status 0, and one that is answered so spells such a module.
pub fn accepted_exactly()
    ensures { AreAcceptedExactly }
{
    command_lines_say_one_thing();
    spelled_once();
    accepted_where_nothing_is_found();
}

/// `lower` answers a text that spells an accepted module with status 0, optimised or not, and one that is answered so spells such a module.
pub fn lowered_exactly()
    ensures { AreLoweredExactly }
{
    command_lines_say_one_thing();
    spelled_once();
    accepted_where_nothing_is_found();
}

/// `optimize` answers a text that spells an accepted module with status 0, and one that is answered so spells such a module.
pub fn optimised_exactly()
    ensures { AreOptimisedExactly }
{
    command_lines_say_one_thing();
    spelled_once();
    accepted_where_nothing_is_found();
}

/// `run` answers a text that spells an accepted module with the status of how its run ends, and one that is answered so spells such a module.
pub fn run_exactly()
    ensures { AreRunExactly }
{
    command_lines_say_one_thing();
    spelled_once();
    spelled_modules_are_numbered();
    accepted_where_nothing_is_found();
    names_have_one_entry();
    one_module_is_lowered();
    runs_end_once();
}

/// `run` answers a text that spells an accepted module without the entry function with status 10, and one that is answered so spells such
/// a module.
pub fn no_entry_exactly()
    ensures { HaveNoEntryExactly }
{
    command_lines_say_one_thing();
    spelled_once();
    accepted_where_nothing_is_found();
}

/// The generated module has a `@main` with which a run may begin.
pub fn generated_modules_have_main()
    ensures { (size : ℕ) → HasEntry (generated_module size) (codes "main") }
{}

/// `generate` answers with status 0 just where the generated module is accepted, whatever its size.
pub fn generated_exactly()
    ensures { AreGeneratedExactly }
{
    command_lines_say_one_thing();
    spelled_once();
    accepted_where_nothing_is_found();
    generated_modules_are_numbered();
    generated_texts_are_short();
    printed_modules_are_spelled();
}

/// To a text that spells a module which isn't accepted, all modes but `print` answer the first of all that is wrong with that module.
pub fn refused_for_the_first()
    ensures { AreRefusedForTheFirst }
{
    command_lines_say_one_thing();
    spelled_once();
}

/// A text that is answered with status 3, as no module, spells none.
pub fn reported_rightly()
    ensures { AreReportedRightly }
{
    command_lines_say_one_thing();
}

/// `print` answers a text that spells a module with status 0, and one that is answered so spells a module.
pub fn printed_exactly()
    ensures { ArePrintedExactly }
{
    command_lines_say_one_thing();
    spelled_once();
}

/// What `print` writes with status 0 spells the module that the text spells: to read it gives that module again.
pub fn printed_texts_read_back()
    ensures { ArePrintedReadBack }
{
    command_lines_say_one_thing();
    printed_modules_are_spelled();
    spelled_modules_are_numbered();
}
