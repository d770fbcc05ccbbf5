//! The texts of what a terminator goes to.

ghost use Rattle.std.specs.Prelude.{◌≡◌, ◌++◌, OnOk};
ghost use Rattle.instruction_table.specs.Forms.{ending_of};
ghost use Rattle.sil_printer.specs.Words.{listed};
ghost use Rattle.sil_printer.specs.CanonicalInsts.{block_name, default_word, edge_word, edge_text};

use crate::operands::push_case_name;
use crate::pieces::{push_bytes, push_decimal, push_parens_if_any, push_separator};
use instruction_table::{Ending, Op, ending_of};
use sil_ast::{Boxed, Edge, Exhausted, Member};

/// Puts the edges of an instruction behind `lead`.
pub(crate) fn push_edges(
    out: &mut Vec<u8>,
    lead: &[u8],
    op: Op,
    edges: &[Edge],
) -> Result<(), Exhausted>
    ensures { OnOk result (out.new.items ≡ out.old.items ++ (lead.now ++ listed (edge_text op) edges.now)) }
{
    push_bytes(out, lead)?;
    for (i, edge) in edges.iter().enumerate() {
        push_separator(out, b", ", i)?;
        push_edge(out, op, edge)?;
    }
    Ok(())
}

fn push_edge(out: &mut Vec<u8>, op: Op, edge: &Edge) -> Result<(), Exhausted>
    ensures { OnOk result (out.new.items ≡ out.old.items ++ edge_text op edge.now) }
{
    push_edge_word(out, op, &edge.case_of)?;
    push_block_name(out, u64::from(edge.block.0))?;
    push_parens_if_any(out, edge.args.as_slice())
}

fn push_edge_word(
    out: &mut Vec<u8>,
    op: Op,
    case_of: &Option<Boxed<Member>>,
) -> Result<(), Exhausted>
    ensures { OnOk result (out.new.items ≡ out.old.items ++ edge_word op case_of.now) }
{
    match case_of {
        Some(member) => {
            push_bytes(out, b"case ")?;
            push_case_name(out, member.get())?;
            push_bytes(out, b": ")
        }
        None => push_bytes(out, default_word(op)),
    }
}

fn default_word(op: Op) -> &'static [u8]
    ensures { result.now ≡ default_word (ending_of op) }
{
    match ending_of(op) {
        Ending::Cases => b"default ",
        Ending::Inside
        | Ending::OneBranch
        | Ending::TwoBranches
        | Ending::Return
        | Ending::Unreachable => b"",
    }
}

/// Puts `bb1`.
pub(crate) fn push_block_name(out: &mut Vec<u8>, k: u64) -> Result<(), Exhausted>
    ensures { OnOk result (out.new.items ≡ out.old.items ++ block_name k) }
{
    push_bytes(out, b"bb")?;
    push_decimal(out, k)
}
