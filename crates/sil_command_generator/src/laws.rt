//! What is known of the modules, before any is made, on calls that do nothing.

ghost use Rattle.sil_command_generator.specs.inner.Laws.{AreGeneratedNumbered, AreGeneratedShort};

/// A generated module is in numbered form: its canonical text spells it.
pub fn generated_modules_are_numbered()
    ensures { AreGeneratedNumbered }
{}

/// The text of a generated module is short enough to be read.
pub fn generated_texts_are_short()
    ensures { AreGeneratedShort }
{}
