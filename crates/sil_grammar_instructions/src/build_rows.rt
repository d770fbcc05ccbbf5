//! Builds the row of any instruction from the parts that the table of instructions lists, and puts it before the values
//! that wait.

ghost use Rattle.std.specs.Prelude.{◌≡◌, ◌≤◌, drop, length, IfOk, OnOk};
ghost use Rattle.sil_grammar_tables.specs.Grammar.{body};
ghost use Rattle.sil_grammar_tables.specs.Rows.{comma_behind};
ghost use Rattle.sil_grammar_tables.specs.declared.grammar.Production.TheVariants.{Row};
ghost use Rattle.sil_grammar_values.specs.inner.PartFaults.{part_fault};
ghost use Rattle.sil_grammar_values.specs.inner.Reduced.{parts_of, reduced};
ghost use Rattle.sil_grammar_values.specs.Values as none;

use crate::build_row_parts::put_part;
use instruction_table::{Op, Part, row_of};
use sil_ast::{Exhausted, List, Place};
use sil_grammar_tables::has_comma_behind;
use sil_grammar_tree::{Fault, InstBox, WrittenInst, earlier};
use sil_grammar_values::nothing::{bare_inst, skip};
use sil_grammar_values::prepended::Prepended;
use sil_grammar_values::put::put;
use sil_grammar_values::value::{Reduced, Value};
use std::alloc::Global;

/// Takes the comma behind a part away, where the parts that follow want one.
fn skip_comma(op: Op, here: Part, others: &[Part], values: &mut Prepended<Value>)
    requires { length (comma_behind op here others.now) ≤ length values.old }
    ensures { values.new ≡ drop (length (comma_behind op here others.now)) values.old }
{
    if has_comma_behind(op, here, others) {
        skip(values);
    }
}

/// How many parts are an operand each, for which room is made at once.
fn single_operands(parts: &[Part]) -> usize {
    parts
        .iter()
        .filter(|part| matches!(part, Part::Typed | Part::Bare))
        .count()
}

/// An instruction of which nothing is written but its mnemonic.
fn begun(alloc: Global, op: Op, mnemonic: Place, parts: &[Part]) -> Result<WrittenInst, Exhausted>
    ensures { IfOk result (λ inst. inst ≡ none.bare_inst op mnemonic) }
{
    let mut inst = bare_inst(alloc, op, mnemonic);
    inst.operands = List::with_capacity(alloc, single_operands(parts))?;
    Ok(inst)
}

/// Puts the instruction that a row writes, from the values of its body, which are the first ones, and answers the first
/// fault in it.
#[inline(never)]
pub fn reduce_row(
    alloc: Global,
    op: Op,
    values: &mut Prepended<Value>,
) -> Result<Option<Fault>, Exhausted>
    requires { length (body (Row op)) ≤ length values.old }
    ensures values { OnOk result (values.new ≡ reduced (Row op) values.old) }
    ensures fault { IfOk result (λ fault. fault ≡ part_fault (Row op) (parts_of (Row op) values.old)) }
{
    let mnemonic = values.pop_front().into_token().place;
    let parts = row_of(op).parts;
    let mut inst = begun(alloc, op, mnemonic, parts)?;
    let mut fault = None;
    for i in 0..parts.len() {
        let found = put_part(alloc, op, parts[i], values, &mut inst)?;
        fault = earlier(fault, found);
        skip_comma(op, parts[i], &parts[i + 1..], values);
    }
    let value = Value::Inst(InstBox::new(alloc, inst)?);
    put(Reduced { value, fault }, values)
}
