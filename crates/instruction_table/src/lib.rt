//! The table of instructions: one row each, with its form and what each column says of it; and the names of builtin operations,
//! as a text spells them.
//! The grammar, the syntax tree and every rule read the same rows. It knows of no module and no rule, and doesn't say what an
//! operation does.
#![tactic(auto)]

mod builtin_names;
mod columns;
mod entries;
mod forms;
mod op;
mod ownership_columns;
mod rows;
mod typing_columns;

pub use builtin_names::{Operation, Width, is_builtin_name, operation_spelling, width_spelling};
pub use entries::{
    BareOperands, Detail, Ending, ExtraValue, InForms, ResultKind, Results, Role, TypeWords, Words,
};
pub use forms::{FormRow, Part};
pub use op::{INSTRUCTION_COUNT, OPS, Op};
pub use rows::{
    bare_operands_of, detail_of, ending_of, extra_value_of, forms_of, has_one_result,
    has_result_list, makes_tuple, may_have_storage, may_lack_operand, result_kind_of, results_of,
    roles_of, row_of, type_words_of, words_of,
};
