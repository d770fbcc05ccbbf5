//! The quantities that have a limit, with the words that an answer prints.

ghost use Rattle.std.specs.Prelude.{◌≡◌};
ghost use Rattle.sil_rules.specs.LimitWords.{word_of};

/// A quantity that has a limit.
#[derive(Clone, Copy, Debug, PartialEq, Eq)]
pub enum LimitWord {
    /// bytes of the text
    Text,
    /// bytes of a name, its sigil not counted
    Name,
    /// declarations of the module
    Declarations,
    /// members of a declaration
    Members,
    /// parameters, arguments of a block or an edge, operands, results, elements of a tuple, attributes
    Arguments,
    /// functions of the module
    Functions,
    /// blocks of a function
    Blocks,
    /// instructions of a function, terminators counted
    Instructions,
    /// values of a function: arguments, results, and one for each `store [assign]` and `destroy_addr`
    Values,
    /// levels of a type
    Depth,
    /// leaves of a type
    Leaves,
}

impl LimitWord {
    /// The word that an answer prints.
    pub fn word(self) -> &'static [u8]
        ensures { result.now ≡ word_of self }
    {
        match self {
            LimitWord::Text => b"text",
            LimitWord::Name => b"name",
            LimitWord::Declarations => b"declarations",
            LimitWord::Members => b"members",
            LimitWord::Arguments => b"arguments",
            LimitWord::Functions => b"functions",
            LimitWord::Blocks => b"blocks",
            LimitWord::Instructions => b"instructions",
            LimitWord::Values => b"values",
            LimitWord::Depth => b"depth",
            LimitWord::Leaves => b"leaves",
        }
    }
}
