//! The statuses with which the command ends.

ghost use Rattle.std.specs.Prelude.{◌≡◌};
ghost use Rattle.sil_rules.specs.Statuses.{code_of};

/// How a call of the command ended.
#[derive(Clone, Copy, Debug, PartialEq, Eq)]
pub enum Status {
    /// What was asked for is done: the module is accepted, printed, lowered, optimised, or has run to its end.
    Done,
    /// The module breaks a rule.
    Refused,
    /// The words are no command line.
    Usage,
    /// The text is no module.
    NotAModule,
    /// A read failed.
    ReadFault,
    /// A write failed.
    WriteFault,
    /// A limit is passed.
    Limit,
    /// Memory ran out.
    OutOfMemory,
}

impl Status {
    /// The number with which the process ends.
    pub fn code(self) -> u8
        ensures { result ≡ code_of self }
    {
        match self {
            Status::Done => 0,
            Status::Refused => 1,
            Status::Usage => 2,
            Status::NotAModule => 3,
            Status::ReadFault => 4,
            Status::WriteFault => 5,
            Status::Limit => 8,
            Status::OutOfMemory => 9,
        }
    }
}
