//! The rows of the grammar: what an instruction writes there, by the table of instructions.

ghost use Rattle.std.specs.Prelude.{◌≡◌, ◌++◌, ◌∷◌, [], if◌then◌else◌, length, reverse, OnOk};
ghost use Rattle.sil_grammar_tables.specs.Rows.{brings_comma, comma_behind, edges_of, ends_block, member_of, operand_of};
ghost use Rattle.sil_grammar_tables.specs.Rows.{qualifier_of, row_body, symbols_of, text_of};
ghost use Rattle.sil_grammar_tables.specs.Terminals.{punctuation};
ghost use Rattle.sil_grammar_tables.specs.declared.grammar.Symbol.TheVariants as s;
ghost use Rattle.sil_grammar_classes.specs.declared.classes.Punctuation.TheVariants.{Comma};

use crate::grammar::{Nonterminal, Symbol, Terminal};
use instruction_table::{
    Detail, Ending, Op, Part, Words, detail_of, ending_of, may_lack_operand, row_of, words_of,
};
use sil_grammar_classes::{Class, Keyword, Punctuation};
use std::alloc::AllocError;

/// Whether an instruction ends a block.
#[tactic(auto, unfolding(crate::specs::Rows::ends_block))]
pub fn ends_block(op: Op) -> bool
    ensures { result ≡ ends_block op }
{
    match ending_of(op) {
        Ending::Inside => false,
        Ending::OneBranch
        | Ending::TwoBranches
        | Ending::Cases
        | Ending::Return
        | Ending::Unreachable => true,
    }
}

#[tactic(auto, unfolding(crate::specs::Rows::operand_of))]
fn operand_of(op: Op) -> &'static [Symbol]
    ensures { result.now ≡ s.Part (operand_of op) ∷ [] }
{
    if may_lack_operand(op) {
        &[symbol!(part EnumOperand)]
    } else {
        &[symbol!(part Operand)]
    }
}

#[tactic(auto, unfolding(crate::specs::Rows::member_of))]
fn member_of(op: Op) -> &'static [Symbol]
    ensures { result.now ≡ s.Part (member_of op) ∷ [] }
{
    match detail_of(op) {
        Detail::Case => &[symbol!(part EnumElement)],
        _ => &[symbol!(part MemberName)],
    }
}

#[tactic(auto, unfolding(crate::specs::Rows::qualifier_of))]
fn qualifier_of(op: Op) -> &'static [Symbol]
    ensures { result.now ≡ s.Part (qualifier_of op) ∷ [] }
{
    match words_of(op) {
        Words::TakeWord => &[symbol!(part TakeFlag)],
        Words::InitWord => &[symbol!(part InitFlag)],
        Words::AnyWord | Words::NoWord => &[symbol!(part Qualifier)],
    }
}

#[tactic(auto, unfolding(crate::specs::Rows::text_of))]
fn text_of(op: Op) -> &'static [Symbol]
    ensures { result.now ≡ s.Read (text_of op) ∷ [] }
{
    match detail_of(op) {
        Detail::Operation => &[symbol!(class BuiltinText)],
        _ => &[symbol!(any AnyText)],
    }
}

#[tactic(auto, unfolding(crate::specs::Rows::edges_of))]
fn edges_of(op: Op) -> &'static [Symbol]
    ensures { result.now ≡ edges_of op }
{
    match ending_of(op) {
        Ending::OneBranch => &[symbol!(part Edge)],
        Ending::TwoBranches => &[symbol!(part Edge), symbol!(mark Comma), symbol!(part Edge)],
        Ending::Cases => &[symbol!(part SwitchPart)],
        Ending::Inside | Ending::Return | Ending::Unreachable => &[],
    }
}

/// What a part of an instruction's form is in the grammar.
#[tactic(auto, unfolding(crate::specs::Rows::symbols_of))]
fn symbols_of(op: Op, part: Part) -> &'static [Symbol]
    ensures { result.now ≡ symbols_of op part }
{
    match part {
        Part::Flags => &[symbol!(part Flags)],
        Part::Qualifier => qualifier_of(op),
        Part::Typed => operand_of(op),
        Part::Bare => &[symbol!(class Percent)],
        Part::To => &[symbol!(word To)],
        Part::TypeWord => &[symbol!(mark Dollar), symbol!(part Type)],
        Part::Member => member_of(op),
        Part::Number => &[symbol!(class Number)],
        Part::Text => text_of(op),
        Part::Callee => &[symbol!(any AnyAt)],
        Part::BareArgs => &[
            symbol!(mark LeftParen),
            symbol!(part BareNames),
            symbol!(mark RightParen),
        ],
        Part::TypedArgs => &[
            symbol!(mark LeftParen),
            symbol!(part Operands),
            symbol!(mark RightParen),
        ],
        Part::ResultType => &[
            symbol!(mark Colon),
            symbol!(mark Dollar),
            symbol!(part Type),
        ],
        Part::SignatureWord => &[
            symbol!(mark Colon),
            symbol!(mark Dollar),
            symbol!(part FunctionType),
        ],
        Part::Debug => &[symbol!(part Debug)],
        Part::Edges => edges_of(op),
    }
}

/// Whether a part brings its own comma.
#[tactic(auto, unfolding(crate::specs::Rows::brings_comma))]
fn brings_comma(op: Op, part: Part) -> bool
    ensures { result ≡ brings_comma op part }
{
    match part {
        Part::Typed => may_lack_operand(op),
        _ => false,
    }
}

/// Whether a comma stands behind a part, where others follow.
#[inline]
#[tactic(auto, unfolding(crate::specs::Rows::comma_behind, crate::specs::Rows::comma_between))]
pub fn has_comma_behind(op: Op, here: Part, others: &[Part]) -> bool
    ensures { comma_behind op here others.now ≡ (if result then s.Read (punctuation Comma) ∷ [] else []) }
{
    match others {
        [next, ..] => here.is_item() && next.is_item() && !brings_comma(op, *next),
        [] => false,
    }
}

/// The comma behind a part, where others follow.
fn comma_behind(op: Op, here: Part, others: &[Part]) -> &'static [Symbol]
    ensures { result.now ≡ comma_behind op here others.now }
{
    if has_comma_behind(op, here, others) {
        &[symbol!(mark Comma)]
    } else {
        &[]
    }
}

/// Puts symbols on the stack, the first of them on top.
pub(crate) fn push_symbols(stack: &mut Vec<Symbol>, symbols: &[Symbol]) -> Result<(), AllocError>
    ensures { OnOk result (reverse stack.new.items ≡ symbols.now ++ reverse stack.old.items) }
{
    for i in (0..symbols.len()).rev() {
        stack.push(symbols[i])?;
    }
    Ok(())
}

/// Puts the row of an instruction on the stack, its mnemonic on top.
#[inline(never)]
pub(crate) fn push_row(stack: &mut Vec<Symbol>, op: Op) -> Result<(), AllocError>
    ensures { OnOk result (reverse stack.new.items ≡ row_body op ++ reverse stack.old.items) }
{
    let parts = row_of(op).parts;
    for i in (0..parts.len()).rev() {
        push_symbols(stack, comma_behind(op, parts[i], &parts[i + 1..]))?;
        push_symbols(stack, symbols_of(op, parts[i]))?;
    }
    stack.push(Symbol::Read(Terminal::Just(Class::Word(Keyword::Mnemonic(op)))))?;
    Ok(())
}

/// How many symbols the row of an instruction has.
pub(crate) fn row_length(op: Op) -> usize
    ensures { result ≡ length (row_body op) }
{
    let parts = row_of(op).parts;
    let mut length = 1;
    for i in 0..parts.len() {
        length += symbols_of(op, parts[i]).len();
        length += comma_behind(op, parts[i], &parts[i + 1..]).len();
    }
    length
}
