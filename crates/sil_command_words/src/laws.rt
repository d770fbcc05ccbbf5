//! What holds of all command lines, each on a call that does nothing. The lemmas behind it are in `proofs/`.

ghost use Rattle.sil_command_words.specs.inner.Laws.{SayOneThing};

/// A command line says one thing.
pub fn command_lines_say_one_thing()
    ensures { SayOneThing }
{}
