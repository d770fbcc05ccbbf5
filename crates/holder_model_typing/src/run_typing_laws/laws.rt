//! The law on the types of runs, on a call that does nothing. The lemmas behind it are in `proofs/`.

ghost use Rattle.holder_model.specs.RunTyping.RunTyped.{RunnableIsTyped};

/// A lowered module that is typed is typed in the words of a run.
pub fn runnable_is_typed()
    ensures { RunnableIsTyped }
{}
