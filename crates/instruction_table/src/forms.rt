//! The form of an instruction: its mnemonic, and the parts that stand behind it.

ghost use Rattle.std.specs.Prelude.{◌≡◌};
ghost use Rattle.instruction_table.specs.Forms as form;

/// The form of an instruction: its mnemonic, and its parts from left to right. Results stand before it and aren't among them.
#[derive(Clone, Copy)]
pub struct FormRow {
    pub mnemonic: &'static [u8],
    pub parts: &'static [Part],
}

/// A part of an instruction's form.
#[derive(Clone, Copy, Debug, PartialEq, Eq)]
pub enum Part {
    /// `[lexical]` and `[var_decl]`, each optional.
    Flags,
    /// A word in brackets as `[copy]`, optional.
    Qualifier,
    /// An operand with its type: `%a : $T`.
    Typed,
    /// An operand without: `%a`.
    Bare,
    /// The word `to`.
    To,
    /// A type that no colon precedes: `$T`.
    TypeWord,
    /// `#T.m`, or `#E.c!enumelt`.
    Member,
    /// A number in decimal.
    Number,
    /// A text in quotes.
    Text,
    /// A function's name: `@f`.
    Callee,
    /// `(%a, %b)`, none or more.
    BareArgs,
    /// `(%a : $T, %b : $U)`, none or more.
    TypedArgs,
    /// A type behind a colon: `: $T`.
    ResultType,
    /// A signature behind a colon: `: $@convention(thin) () -> ()`.
    SignatureWord,
    /// `, let, name "x", argno 1, expr op_deref`, each part optional.
    Debug,
    /// The blocks that a terminator goes to, each with its arguments, or the cases and the default of `switch_enum`.
    Edges,
}

impl Part {
    /// Whether it is an item: a comma stands between one item and the next.
    pub fn is_item(self) -> bool
        ensures { result ≡ form.is_item self }
    {
        match self {
            Part::Typed
            | Part::Bare
            | Part::TypeWord
            | Part::Member
            | Part::Number
            | Part::Text
            | Part::Edges => true,
            Part::Flags
            | Part::Qualifier
            | Part::To
            | Part::Callee
            | Part::BareArgs
            | Part::TypedArgs
            | Part::ResultType
            | Part::SignatureWord
            | Part::Debug => false,
        }
    }
}
