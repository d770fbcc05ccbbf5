//! The lines on a value that stand behind a refusal: the value, another one that takes part, and the walk that shows it.

ghost use Rattle.std.specs.Prelude.{◌≡◌, ◌++◌, OnOk};
ghost use Rattle.std.specs.Option.{option_copied};
ghost use Rattle.sil_cfg.specs.Flow.{edge_to};
ghost use Rattle.sil_cfg.specs.Items.{flow_of};
ghost use Rattle.sil_verifier_accepted.specs.memory_rules.Statics as statics;
ghost use Rattle.sil_verifier_accepted.specs.AcceptedModules.Shown as shown;
ghost use Rattle.sil_command_lines.specs.ValueTexts.{other_lines, shown_lines, subject_line, walk_line, walk_lines, walk_words};

use crate::texts::push_number;
use sil_ast::{EdgeId, Exhausted, Function, ValueId};
use sil_rules::{Group, Rule};

/// The number of the block that an edge goes to.
fn target_of(f: &Function, edge: EdgeId) -> u32
    ensures { result ≡ edge_to (flow_of f.now) edge }
{
    match f.blocks.get(edge.block.0 as usize) {
        Some(block) => match block.terminator.edges.get(edge.index as usize) {
            Some(edge) => edge.block.0,
            None => 0,
        },
        None => 0,
    }
}

fn push_blocks(out: &mut Vec<u8>, f: &Function, walk: &[EdgeId]) -> Result<(), Exhausted>
    ensures { OnOk result (out.new.items ≡ out.old.items ++ walk_words f.now walk.now) }
{
    for edge in walk {
        out.extend_from_slice(b" bb")?;
        push_number(out, target_of(f, *edge))?;
    }
    Ok(())
}

/// The line of the walk, which visits the entry first.
fn push_walk(out: &mut Vec<u8>, f: Option<&Function>, walk: &[EdgeId]) -> Result<(), Exhausted>
    ensures { OnOk result (out.new.items ≡ out.old.items ++ walk_line (option_copied f.entry) walk.now) }
{
    out.extend_from_slice(b"walk bb0")?;
    if let Some(f) = f {
        push_blocks(out, f, walk)?;
    }
    out.push(b'\n')?;
    Ok(())
}

/// Whether the rule is 608 or 611.
fn is_static(rule: Rule) -> bool
    ensures { result ≡ statics.is_static rule }
{
    matches!(rule, Rule::InoutOverlap | Rule::PartialAccess)
}

/// Whether a walk shows the rule: rules on kinds, and 608 and 611, hold whether a walk goes there or not.
fn has_walk(rule: Rule) -> bool
    ensures { result ≡ shown.has_walk rule }
{
    match rule.group() {
        Group::Kinds => false,
        _ => !is_static(rule),
    }
}

fn push_walk_of(
    out: &mut Vec<u8>,
    rule: Rule,
    f: Option<&Function>,
    walk: &[EdgeId],
) -> Result<(), Exhausted>
    ensures { OnOk result (out.new.items ≡ out.old.items ++ walk_lines rule (option_copied f.entry) walk.now) }
{
    if has_walk(rule) {
        push_walk(out, f, walk)?;
    }
    Ok(())
}

fn push_subject(out: &mut Vec<u8>, subject: ValueId) -> Result<(), Exhausted>
    ensures { OnOk result (out.new.items ≡ out.old.items ++ subject_line subject) }
{
    out.extend_from_slice(b"subject %")?;
    push_number(out, subject.0)?;
    out.push(b'\n')?;
    Ok(())
}

fn push_other(out: &mut Vec<u8>, other: Option<ValueId>) -> Result<(), Exhausted>
    ensures { OnOk result (out.new.items ≡ out.old.items ++ other_lines other) }
{
    if let Some(other) = other {
        out.extend_from_slice(b"other %")?;
        push_number(out, other.0)?;
        out.push(b'\n')?;
    }
    Ok(())
}

/// Adds the lines on a value of which the rule is broken in the function: the value, the other one that takes part, and the walk, for a
/// rule that has one. Fails only where memory runs out.
pub fn push_shown(
    out: &mut Vec<u8>,
    subject: ValueId,
    other: Option<ValueId>,
    rule: Rule,
    f: Option<&Function>,
    walk: &[EdgeId],
) -> Result<(), Exhausted>
    ensures { OnOk result (out.new.items ≡ out.old.items ++ shown_lines subject other rule (option_copied f.entry) walk.now) }
{
    push_subject(out, subject)?;
    push_other(out, other)?;
    push_walk_of(out, rule, f, walk)
}
