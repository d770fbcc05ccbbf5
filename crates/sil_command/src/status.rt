//! The statuses with which the command ends.

ghost use Rattle.std.specs.Prelude.{◌≡◌};
ghost use Rattle.sil_command.specs.Statuses.{code_of};

/// How a call of the command ended.
#[derive(Clone, Copy, Debug, PartialEq, Eq)]
pub enum Status {
    /// What was asked for is done: the module is accepted, printed, lowered, optimised, or has run to its end.
    Done,
    /// The module breaks a rule.
    Refused,
    /// The words are no command line.
    Usage,
    /// The text is no module.
    NotAModule,
    /// A read failed.
    ReadFault,
    /// A write failed.
    WriteFault,
    /// The run ended with a trap.
    Trapped,
    /// The run ended at its bound on turns.
    OutOfTurns,
    /// A limit is passed.
    Limit,
    /// Memory ran out.
    OutOfMemory,
    /// The module has no entry function of the name.
    NoEntry,
}

impl Status {
    /// The number with which the process ends.
    pub fn code(self) -> u8
        ensures { result ≡ code_of self }
    {
        match self {
            Status::Done => 0,
            Status::Refused => 1,
            Status::Usage => 2,
            Status::NotAModule => 3,
            Status::ReadFault => 4,
            Status::WriteFault => 5,
            Status::Trapped => 6,
            Status::OutOfTurns => 7,
            Status::Limit => 8,
            Status::OutOfMemory => 9,
            Status::NoEntry => 10,
        }
    }
}
