//! The text of a whole module.

ghost use Rattle.std.specs.Prelude.{◌≡◌, ◌++◌, OnOk, IfOk};
ghost use Rattle.sil_printer.specs.Words.{each_behind, line_feed};
ghost use Rattle.sil_printer.specs.CanonicalModules.{stage_text, imports_text, entry_text, entry_line, vtable_text, canonical_text};

use crate::functions::push_functions;
use crate::operands::push_function_name;
use crate::pieces::{push_bytes, push_each, push_opening};
use sil_ast::{DeinitEntry, Exhausted, Function, Imports, Module, Stage, Text, Vtable};
use std::alloc::Global;

/// The canonical text of a module. A part that an instruction lacks prints as nothing, and so does the name of a function
/// that the module doesn't have; no rule is checked.
pub fn print(alloc: Global, m: &Module) -> Result<Text, Exhausted>
    ensures { IfOk result (λ text. text ≡ canonical_text m.now) }
{
    let mut out = Vec::new(alloc);
    push_bytes(&mut out, stage_line(m.stage))?;
    push_bytes(&mut out, import_lines(m.imports))?;
    push_each(&mut out, b"\n", m.decls.as_slice())?;
    push_functions(&mut out, m.functions.as_slice())?;
    push_vtables(&mut out, m.functions.as_slice(), m.vtables.as_slice())?;
    Text::from_vec(alloc, out)
}

fn stage_line(stage: Stage) -> &'static [u8]
    ensures { result.now ≡ stage_text stage }
{
    match stage {
        Stage::Raw => b"sil_stage raw\n",
        Stage::Canonical => b"sil_stage canonical\n",
    }
}

/// An empty line and the imports, or nothing where there are none.
fn import_lines(imports: Imports) -> &'static [u8]
    ensures { result.now ≡ imports_text imports }
{
    match (imports.builtin, imports.swift) {
        (false, false) => b"",
        (true, false) => b"\nimport Builtin\n",
        (false, true) => b"\nimport Swift\n",
        (true, true) => b"\nimport Builtin\nimport Swift\n",
    }
}

fn push_vtables(
    out: &mut Vec<u8>,
    functions: &[Function],
    vtables: &[Vtable],
) -> Result<(), Exhausted>
    ensures { OnOk result (out.new.items ≡ out.old.items ++ each_behind line_feed (vtable_text functions.now) vtables.now) }
{
    for vtable in vtables {
        push_bytes(out, b"\n")?;
        push_vtable(out, functions, vtable)?;
    }
    Ok(())
}

fn push_vtable(out: &mut Vec<u8>, functions: &[Function], vtable: &Vtable) -> Result<(), Exhausted>
    ensures { OnOk result (out.new.items ≡ out.old.items ++ vtable_text functions.now vtable.now) }
{
    push_opening(out, b"sil_vtable ", vtable.class_name.as_slice())?;
    push_entry(out, functions, &vtable.entry)?;
    push_bytes(out, b"}\n")?;
    Ok(())
}

fn push_entry(
    out: &mut Vec<u8>,
    functions: &[Function],
    entry: &Option<DeinitEntry>,
) -> Result<(), Exhausted>
    ensures { OnOk result (out.new.items ≡ out.old.items ++ entry_line functions.now entry.now) }
{
    match entry {
        Some(entry) => {
            push_bytes(out, b"  ")?;
            push_deinit(out, functions, entry)?;
            push_bytes(out, b"\n")
        }
        None => Ok(()),
    }
}

fn push_deinit(
    out: &mut Vec<u8>,
    functions: &[Function],
    entry: &DeinitEntry,
) -> Result<(), Exhausted>
    ensures { OnOk result (out.new.items ≡ out.old.items ++ entry_text functions.now entry.now) }
{
    push_bytes(out, b"#")?;
    push_bytes(out, entry.owner.as_slice())?;
    push_bytes(out, b".deinit!destroyer: ")?;
    push_function_name(out, functions, entry.function)
}
