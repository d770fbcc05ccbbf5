//! The layouts of the functions of a module that a run can come to.

ghost use Rattle.std.specs.Prelude.{◌≡◌, ◌≤◌, IfOk, length, true};
ghost use Rattle.sil_rules.specs.declared.limits.TheConstants.{VALUES};
ghost use Rattle.holder_model_typing.specs.holder_model.RunTyping.Runnable.{IsRunnable};
ghost use Rattle.sil_ast.specs.declared.function.Function as function;
ghost use Rattle.sil_types_declarations.specs.TypeDefinitions.Declarations.{declarations_of};
ghost use Rattle.sil_types.specs.Typing.Values.{value_types};
ghost use Rattle.holder_model_typing.specs.holder_model.Calling.{value_count};
ghost use Rattle.type_check_values.specs.TypingValues.inner.Told.{types_told};
ghost use Rattle.count_machine_layouts.specs.FrameLayouts.inner.Layouts as spec;
ghost use Rattle.count_machine_layouts.specs.FrameLayouts.inner.Layouts.{layout_to};
ghost use Rattle.count_machine_layouts.specs.FrameLayouts.inner.Laid.{AreLaid};
ghost use Rattle.count_machine_layouts.specs.FrameLayouts.inner.Sized.{HaveSizes};

use crate::frame_layouts::kept::kept_of;
use crate::frame_layouts::layout::Layout;
use sil_ast::{Exhausted, FuncId, Function, List, Module};
use sil_types::TypeTable;
use std::alloc::Global;
use type_check_rows::TypeView;
use type_check_values::{find_types, find_value_functions};

/// Lays out values, by their types and the functions that they stand for.
fn lay_out(
    alloc: Global,
    table: &TypeTable,
    types: &[Option<TypeView<'_>>],
    functions: &[Option<FuncId>],
) -> Result<Layout, Exhausted>
    requires sizes { HaveSizes table.now (types_told types.now) }
    requires few { length functions.now ≤ VALUES }
    ensures { IfOk result (λ l. l ≡ layout_to table.now (types_told types.now) functions.now (length functions.now)) }
{
    let mut layout = Layout::with_capacity(alloc, functions.len())?;
    for (number, function) in functions.iter().enumerate() {
        layout.push(kept_of(table, types, number, *function))?;
    }
    Ok(layout)
}

/// What is known of the values of one function.
#[derive(Drop)]
struct ValueFacts<'a> {
    types: Vec<Option<TypeView<'a>>>,
    functions: Vec<Option<FuncId>>,
}

/// Lays out a function, in the memory of these facts.
fn layout_of<'a>(
    alloc: Global,
    table: &'a TypeTable,
    f: &'a Function,
    facts: &mut ValueFacts<'a>,
) -> Result<Layout, Exhausted>
    requires sizes { HaveSizes table.now (value_types table.now f.now) }
    requires few { value_count f.now ≤ VALUES }
    ensures { IfOk result (λ l. l ≡ spec.layout_of table.now f.now) }
{
    find_types(&mut facts.types, table, f)?;
    find_value_functions(&mut facts.functions, f)?;
    lay_out(
        alloc,
        table,
        facts.types.as_slice(),
        facts.functions.as_slice(),
    )
}

/// Lays out a function that is reached; one that isn't takes no memory.
fn layout_where<'a>(
    alloc: Global,
    table: &'a TypeTable,
    reached: bool,
    f: &'a Function,
    facts: &mut ValueFacts<'a>,
) -> Result<Layout, Exhausted>
    requires sizes { HaveSizes table.now (value_types table.now f.now) }
    requires few { value_count f.now ≤ VALUES }
    ensures { IfOk result (λ l. reached ≡ true → l ≡ spec.layout_of table.now f.now) }
{
    if reached {
        layout_of(alloc, table, f, facts)
    } else {
        Ok(Layout::new(alloc))
    }
}

/// The layouts of the functions of a module that are marked as reached, each at its function's number.
pub fn layouts_of(
    alloc: Global,
    m: &Module,
    table: &TypeTable,
    reached: &[bool],
) -> Result<List<Layout>, Exhausted>
    requires runnable { IsRunnable m.now }
    requires of_it { table.now ≡ declarations_of m.now }
    requires marks { length reached.now ≡ length m.now.functions }
    ensures { IfOk result (AreLaid m.now reached.now) }
{
    let mut facts = ValueFacts {
        types: Vec::new(alloc),
        functions: Vec::new(alloc),
    };
    let mut layouts = List::with_capacity(alloc, m.functions.len())?;
    for (number, f) in m.functions.as_slice().iter().enumerate() {
        layouts.push(layout_where(alloc, table, reached[number], f, &mut facts)?)?;
    }
    Ok(layouts)
}
