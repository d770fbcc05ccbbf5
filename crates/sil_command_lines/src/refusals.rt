//! The first line of a refusal: the rule, and the item or the function with the point.

ghost use Rattle.std.specs.Prelude.{◌≡◌, ◌++◌, IfOk, OnOk};
ghost use Rattle.sil_command_lines.specs.Texts.{item_words, name_at, refused_text, site_words, typed_point_words};

use crate::texts::{push_number, push_rule};
use sil_ast::{Exhausted, FuncId, Module, PointId};
use sil_rules::Rule;
use std::alloc::Global;

fn push_point(out: &mut Vec<u8>, point: Option<PointId>) -> Result<(), Exhausted>
    ensures { OnOk result (out.new.items ≡ out.old.items ++ typed_point_words point) }
{
    if let Some(point) = point {
        out.extend_from_slice(b" bb")?;
        push_number(out, point.block.0)?;
        out.push(b':')?;
        push_number(out, point.index)?;
    }
    Ok(())
}

fn push_item(out: &mut Vec<u8>, item: Option<u32>) -> Result<(), Exhausted>
    ensures { OnOk result (out.new.items ≡ out.old.items ++ item_words item) }
{
    if let Some(item) = item {
        out.extend_from_slice(b" item ")?;
        push_number(out, item)?;
    }
    Ok(())
}

fn name_of(m: &Module, function: FuncId) -> &[u8]
    ensures { result.now ≡ name_at m.now function.0 }
{
    match m.functions.get(function.0 as usize) {
        Some(function) => function.name.as_slice(),
        None => &[],
    }
}

fn push_site(
    out: &mut Vec<u8>,
    m: &Module,
    function: Option<FuncId>,
    item: Option<u32>,
    point: Option<PointId>,
) -> Result<(), Exhausted>
    ensures { OnOk result (out.new.items ≡ out.old.items ++ site_words m.now function item point) }
{
    match function {
        Some(function) => {
            out.extend_from_slice(b" @")?;
            out.extend_from_slice(name_of(m, function))?;
            push_point(out, point)
        }
        None => push_item(out, item),
    }
}

/// The line for a module that breaks the rule: the function by its name, with the point where there is one, or else the number of the item.
/// Fails only where memory runs out.
pub fn refused_line(
    alloc: Global,
    m: &Module,
    rule: Rule,
    function: Option<FuncId>,
    item: Option<u32>,
    point: Option<PointId>,
) -> Result<Vec<u8>, Exhausted>
    ensures { IfOk result (λ text. text.items ≡ refused_text m.now rule function item point) }
{
    let mut out = Vec::new(alloc);
    push_rule(&mut out, rule)?;
    push_site(&mut out, m, function, item, point)?;
    out.push(b'\n')?;
    Ok(out)
}
