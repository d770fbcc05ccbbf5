//! The table of instructions, asked by row. Each call takes no memory.

ghost use Rattle.std.specs.Prelude.{◌≡◌};
ghost use Rattle.instruction_table.specs.Forms as form;

use crate::columns::{
    DETAILS, ENDINGS, EXTRA_VALUES, MNEMONICS, OPTIONAL_OPERANDS, PARTS, RESULTS, WORDS,
};
use crate::entries::{
    BareOperands, Detail, Ending, ExtraValue, InForms, ResultKind, Results, Role, TypeWords, Words,
};
use crate::forms::FormRow;
use crate::op::Op;
use crate::ownership_columns::{RESULT_KINDS, ROLES};
use crate::typing_columns::{BARE_OPERANDS, FORMS, OPERAND_TUPLES, STORAGE_TYPES, TYPE_WORDS};

/// The form of an instruction.
pub fn row_of(op: Op) -> FormRow
    ensures mnemonic { result.mnemonic.now ≡ form.mnemonic_of op }
    ensures parts { result.parts.now ≡ form.parts_of op }
{
    FormRow {
        mnemonic: MNEMONICS[op as usize],
        parts: PARTS[op as usize],
    }
}

/// How many results an instruction has.
pub fn results_of(op: Op) -> Results
    ensures { result ≡ form.results_of op }
{
    RESULTS[op as usize]
}

/// Whether an instruction has one result, which may be left without a name.
#[tactic(auto, unfolding(crate::specs::Forms::has_one_result))]
pub fn has_one_result(op: Op) -> bool
    ensures { result ≡ form.has_one_result op }
{
    match results_of(op) {
        Results::OneResult => true,
        Results::NoResult | Results::ResultList => false,
    }
}

/// Whether an instruction's results are a list in parentheses, even one.
pub fn has_result_list(op: Op) -> bool
    ensures { result ≡ form.has_result_list op }
{
    match results_of(op) {
        Results::ResultList => true,
        Results::NoResult | Results::OneResult => false,
    }
}

/// Whether an instruction ends a block, and what comes then.
pub fn ending_of(op: Op) -> Ending
    ensures { result ≡ form.ending_of op }
{
    ENDINGS[op as usize]
}

/// Which words may stand in brackets.
pub fn words_of(op: Op) -> Words
    ensures { result ≡ form.words_of op }
{
    WORDS[op as usize]
}

/// Whether the operands may be left out.
pub fn may_lack_operand(op: Op) -> bool
    ensures { result ≡ form.may_lack_operand op }
{
    OPTIONAL_OPERANDS[op as usize]
}

/// What an instruction's number, text or member says.
pub fn detail_of(op: Op) -> Detail
    ensures { result ≡ form.detail_of op }
{
    DETAILS[op as usize]
}

/// Whether an instruction counts for one value more than it defines.
pub fn extra_value_of(op: Op) -> ExtraValue
    ensures { result ≡ form.extra_value_of op }
{
    EXTRA_VALUES[op as usize]
}

/// Whether weak and unowned storage may stand behind an instruction as its type.
pub fn may_have_storage(op: Op) -> bool
    ensures { result ≡ form.may_have_storage op }
{
    STORAGE_TYPES[op as usize]
}

/// Whether an instruction makes the tuple of its operands.
pub fn makes_tuple(op: Op) -> bool
    ensures { result ≡ form.makes_tuple op }
{
    OPERAND_TUPLES[op as usize]
}

/// In functions of which form an instruction may stand.
pub fn forms_of(op: Op) -> InForms
    ensures { result ≡ form.forms_of op }
{
    FORMS[op as usize]
}

/// Which words an instruction takes for which types, in a function in ownership form.
pub fn type_words_of(op: Op) -> TypeWords
    ensures { result ≡ form.type_words_of op }
{
    TYPE_WORDS[op as usize]
}

/// What the operands without a written type stand for.
pub fn bare_operands_of(op: Op) -> BareOperands
    ensures { result ≡ form.bare_operands_of op }
{
    BARE_OPERANDS[op as usize]
}

/// What an instruction does to its operands, in order. The last role is that of all operands behind it.
pub fn roles_of(op: Op) -> &'static [Role]
    ensures { result.now ≡ form.roles_of op }
{
    ROLES[op as usize]
}

/// Of what kind an instruction's results are, where their types aren't trivial.
pub fn result_kind_of(op: Op) -> ResultKind
    ensures { result ≡ form.result_kind_of op }
{
    RESULT_KINDS[op as usize]
}
