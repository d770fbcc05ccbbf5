//! What is printed reads back: the canonical text of a module in numbered form spells that module.
//! It has no code that runs: its call is a law about the definitions of the crates below.
#![tactic(auto)]

ghost use Rattle.sil_printer_laws.specs.inner.Laws.{ArePrintedSpelled};

/// The canonical text of a module in numbered form spells the module.
pub fn printed_modules_are_spelled()
    ensures { ArePrintedSpelled }
{}
