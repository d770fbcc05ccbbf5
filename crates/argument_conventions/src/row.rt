//! What a convention says of a location whose address is handed over.

ghost use Rattle.std.specs.Prelude.{◌≡◌};
ghost use Rattle.argument_conventions.specs.Rows as rows;

/// Whether a location holds a value.
#[derive(Clone, Copy, Debug, PartialEq, Eq)]
pub enum Content {
    Empty,
    Full,
}

/// What a call counts as, among the operations on a location that it is handed.
#[derive(Clone, Copy, Debug, PartialEq, Eq)]
pub enum CallEffect {
    Reads,
    Writes,
    Takes,
}

/// The row of a convention.
#[derive(Clone, Copy, Debug, PartialEq, Eq)]
pub struct AddressRow {
    /// What the location holds as it is handed over: before the call, and at the callee's entry.
    pub before: Content,
    /// What it holds as it is handed back: at the callee's `return`, and behind the call.
    pub after: Content,
    pub counts_as: CallEffect,
    /// Whether other arguments of the call may be handed it too.
    pub shared: bool,
}

impl AddressRow {
    /// Whether the location is full before and behind that, as a part has to be.
    pub fn keeps_full(self) -> bool
        ensures { result ≡ rows.keeps_full self }
    {
        match (self.before, self.after) {
            (Content::Full, Content::Full) => true,
            _ => false,
        }
    }

    /// Whether nothing is changed there.
    pub fn only_reads(self) -> bool
        ensures { result ≡ rows.only_reads self }
    {
        match self.counts_as {
            CallEffect::Reads => true,
            CallEffect::Writes | CallEffect::Takes => false,
        }
    }
}
