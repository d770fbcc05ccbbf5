//! The texts of instructions, by the parts of their forms.

ghost use Rattle.std.specs.Prelude.{◌≡◌, ◌++◌, OnOk, codes};
ghost use Rattle.sil_printer.specs.CanonicalInsts.{flags_text, qualifier_text, gap, operands_after, part_text, parts_text, results_text, inst_text};

use crate::edges::push_edges;
use crate::operands::{
    push_bare_args, push_callee, push_first_bare, push_first_typed, push_member, push_number,
    push_quoted, push_signature_word, push_type_word, push_typed_args,
};
use crate::pieces::{Canonical, push_bytes, push_if_set, push_in_parens};
use instruction_table::{Op, Part, has_result_list, row_of};
use sil_ast::{Exhausted, Function, Inst, Operand, Qualifier, ValueId};

/// Puts an instruction; `functions` are those of its module.
pub(crate) fn push_inst(
    out: &mut Vec<u8>,
    functions: &[Function],
    inst: &Inst,
) -> Result<(), Exhausted>
    ensures { OnOk result (out.new.items ≡ out.old.items ++ inst_text functions.now inst.now) }
{
    let row = row_of(inst.op);
    push_results(out, inst.op, inst.results.as_slice())?;
    push_bytes(out, row.mnemonic)?;
    push_parts(out, functions, inst, row.parts)
}

fn push_results(out: &mut Vec<u8>, op: Op, results: &[ValueId]) -> Result<(), Exhausted>
    ensures { OnOk result (out.new.items ≡ out.old.items ++ results_text op results.now) }
{
    match results {
        [] => return Ok(()),
        [value] if !has_result_list(op) => value.push_to(out)?,
        _ => push_in_parens(out, results)?,
    }
    push_bytes(out, b" = ")
}

fn push_parts(
    out: &mut Vec<u8>,
    functions: &[Function],
    inst: &Inst,
    parts: &[Part],
) -> Result<(), Exhausted>
    ensures { OnOk result (out.new.items ≡ out.old.items ++ parts_text functions.now inst.now None inst.now.operands parts.now) }
{
    let mut operands = inst.operands.as_slice();
    let mut before = None;
    for part in parts {
        push_part(
            out,
            functions,
            inst,
            operands,
            gap_before(before, *part),
            *part,
        )?;
        operands = operands_left(*part, operands);
        before = Some(*part);
    }
    Ok(())
}

/// What stands before a part, behind the part before it or the mnemonic.
fn gap_before(before: Option<Part>, part: Part) -> &'static [u8]
    ensures { result.now ≡ gap before part }
{
    match (before, part) {
        (_, Part::ResultType | Part::SignatureWord) => b" : ",
        (_, Part::BareArgs) => b"",
        (Some(Part::Text), Part::TypedArgs) => b"",
        (Some(before), _) if before.is_item() && part.is_item() => b", ",
        _ => b" ",
    }
}

/// The operands that a part leaves to those behind it.
fn operands_left(part: Part, operands: &[Operand]) -> &[Operand]
    ensures { result.now ≡ operands_after part operands.now }
{
    match (part, operands) {
        (Part::Typed | Part::Bare, [_, others @ ..]) => others,
        _ => operands,
    }
}

fn push_part(
    out: &mut Vec<u8>,
    functions: &[Function],
    inst: &Inst,
    operands: &[Operand],
    lead: &[u8],
    part: Part,
) -> Result<(), Exhausted>
    ensures { OnOk result (out.new.items ≡ out.old.items ++ part_text functions.now inst.now operands.now lead.now part) }
{
    match part {
        Part::Flags => push_flags(out, inst),
        Part::Qualifier => push_bytes(out, qualifier_word(inst.qualifier)),
        Part::Typed => push_first_typed(out, lead, operands),
        Part::Bare => push_first_bare(out, lead, operands),
        Part::To => push_to_word(out, lead),
        Part::TypeWord => push_type_word(out, lead, &inst.ty),
        Part::Member => push_member(out, lead, inst.op, &inst.member),
        Part::Number => push_number(out, lead, inst.number),
        Part::Text => push_quoted(out, lead, &inst.text),
        Part::Callee => push_callee(out, lead, functions, inst.function),
        Part::BareArgs => push_bare_args(out, lead, operands),
        Part::TypedArgs => push_typed_args(out, lead, operands),
        Part::ResultType => push_type_word(out, lead, &inst.ty),
        Part::SignatureWord => push_signature_word(out, lead, &inst.signature),
        Part::Debug => inst.debug.push_to(out),
        Part::Edges => push_edges(out, lead, inst.op, inst.edges.as_slice()),
    }
}

fn push_flags(out: &mut Vec<u8>, inst: &Inst) -> Result<(), Exhausted>
    ensures { OnOk result (out.new.items ≡ out.old.items ++ flags_text inst.now) }
{
    push_if_set(out, b" [lexical]", inst.lexical)?;
    push_if_set(out, b" [var_decl]", inst.var_decl)
}

fn qualifier_word(qualifier: Qualifier) -> &'static [u8]
    ensures { result.now ≡ qualifier_text qualifier }
{
    match qualifier {
        Qualifier::Plain => b"",
        Qualifier::Copy => b" [copy]",
        Qualifier::Take => b" [take]",
        Qualifier::Trivial => b" [trivial]",
        Qualifier::Init => b" [init]",
        Qualifier::Assign => b" [assign]",
    }
}

fn push_to_word(out: &mut Vec<u8>, lead: &[u8]) -> Result<(), Exhausted>
    ensures { OnOk result (out.new.items ≡ out.old.items ++ (lead.now ++ codes "to")) }
{
    push_bytes(out, lead)?;
    push_bytes(out, b"to")
}
