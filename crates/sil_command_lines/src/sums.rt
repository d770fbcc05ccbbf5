//! The five lines that sum up a module and the runs of it and of its optimised module.

ghost use Rattle.std.specs.Prelude.{◌≡◌, ◌++◌, IfOk, OnOk, codes, decimal};
ghost use Rattle.sil_command_lines.specs.Summaries.{summary_text, totals_line};
ghost use Rattle.sil_command_lines.specs.Texts.{line};

use sil_ast::Exhausted;
use std::alloc::Global;

/// What a run shows that is summed up.
#[derive(Clone, Copy)]
pub struct Totals {
    /// How many events it shows.
    pub events: u64,
    /// How often references were retained.
    pub retains: u64,
    /// How often references were released.
    pub releases: u64,
}

fn push_count(out: &mut Vec<u8>, count: u64) -> Result<(), Exhausted>
    ensures { OnOk result (out.new.items ≡ out.old.items ++ decimal count) }
{
    let digits = count.to_string(*out.allocator())?;
    out.extend_from_slice(digits.as_bytes())?;
    Ok(())
}

fn push_functions(out: &mut Vec<u8>, functions: u64) -> Result<(), Exhausted>
    ensures { OnOk result (out.new.items ≡ out.old.items ++ line (codes "functions " ++ decimal functions)) }
{
    out.extend_from_slice(b"functions ")?;
    push_count(out, functions)?;
    out.push(b'\n')?;
    Ok(())
}

fn push_copies(out: &mut Vec<u8>, before: u64, after: u64) -> Result<(), Exhausted>
    ensures { OnOk result (out.new.items ≡ out.old.items ++ line (codes "copies " ++ decimal before ++ codes " after " ++ decimal after)) }
{
    out.extend_from_slice(b"copies ")?;
    push_count(out, before)?;
    out.extend_from_slice(b" after ")?;
    push_count(out, after)?;
    out.push(b'\n')?;
    Ok(())
}

fn push_totals(out: &mut Vec<u8>, word: &[u8], totals: &Totals) -> Result<(), Exhausted>
    ensures { OnOk result (out.new.items ≡ out.old.items ++ totals_line word.now totals.now) }
{
    out.extend_from_slice(word)?;
    out.extend_from_slice(b" events ")?;
    push_count(out, totals.events)?;
    out.extend_from_slice(b" retains ")?;
    push_count(out, totals.retains)?;
    out.extend_from_slice(b" releases ")?;
    push_count(out, totals.releases)?;
    out.push(b'\n')?;
    Ok(())
}

/// The lines of `generate`: how many functions and copies the module has, how many copies the optimised one, and what both runs show.
/// The last line is true of every accepted module: its optimised module runs as it does. Fails only where memory runs out.
pub fn summary(
    alloc: Global,
    functions: u64,
    before: u64,
    after: u64,
    plain: &Totals,
    optimised: &Totals,
) -> Result<Vec<u8>, Exhausted>
    ensures { IfOk result (λ text. text.items ≡ summary_text functions before after plain.now optimised.now) }
{
    let mut out = Vec::new(alloc);
    push_functions(&mut out, functions)?;
    push_copies(&mut out, before, after)?;
    push_totals(&mut out, b"plain", plain)?;
    push_totals(&mut out, b"optimized", optimised)?;
    out.extend_from_slice(b"outcomes equal\n")?;
    Ok(out)
}
