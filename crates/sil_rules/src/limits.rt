//! How much a module may have of each quantity.

/// Bytes of a text.
pub const TEXT_BYTES: usize = 1048576;

/// Bytes of a name, its sigil not counted.
pub const NAME_BYTES: usize = 255;

/// Declarations of a module.
pub const DECLARATIONS: usize = 1024;

/// Fields or cases of a declaration.
pub const MEMBERS: usize = 64;

/// Parameters, arguments of a block or an edge, operands, results, elements of a tuple, or attributes: of each as many.
pub const ARGUMENTS: usize = 64;

/// Functions of a module.
pub const FUNCTIONS: usize = 1024;

/// Blocks of a function.
pub const BLOCKS: usize = 512;

/// Instructions of a function, terminators counted.
pub const INSTRUCTIONS: usize = 4096;

/// Values of a function: arguments, results, and one for each `store [assign]` and `destroy_addr`.
pub const VALUES: usize = 1024;

/// Levels of a type, as it is written and through declarations.
pub const DEPTH: u32 = 32;

/// Leaves of a type.
pub const LEAVES: u32 = 64;
