//! The functions that a run may come to: its entry, the deinitialisers of all classes, and what these functions name, and so on.

ghost use Rattle.std.specs.Prelude.{◌≡◌, ◌<◌, [], IfOk, length, map};
ghost use Rattle.count_machine_model.specs.ReadyCode.ReadyModules.{IsClosed, Reaches, ready_class};
ghost use Rattle.holder_model_typing.specs.holder_model.RunTyping.Runnable.{IsRunnable};
ghost use Rattle.sil_ast.specs.declared.place.FuncId.{FuncId};
ghost use Rattle.sil_types_declarations.specs.TypeDefinitions.Declarations.{declarations_of};
ghost use Rattle.count_machine_layouts.specs.ReachedFunctions.inner.Reaching.{
  AreFollowedBut,
  AreFound,
  AreInside,
  AreMarked,
  AreNamedInside,
  AreNamedMarked,
  Follows,
};
ghost use Rattle.count_machine_layouts.specs.ReachedFunctions.inner.Reaching.{GoesOn, HaveDeinitsInside, HaveDeinitsMarked, NamesAreInside, Searches};

use count_machine_model::ReadyClass;
use numbered_form::push_times;
use sil_ast::{Exhausted, FuncId, Module};
use std::alloc::Global;
use type_check_values::find_value_functions;

/// Marks a function, and has it wait unless it was marked before.
fn mark(reached: &mut [bool], waiting: &mut Vec<FuncId>, function: FuncId) -> Result<(), Exhausted>
    requires { function.0 < length reached.old }
    ensures goes { IfOk result (λ _. GoesOn reached.old waiting.old.items reached.new waiting.new.items) }
    ensures marked { IfOk result (λ _. Reaches reached.new function) }
{
    let number = function.0 as usize;
    if !reached[number] {
        reached[number] = true;
        waiting.push(function)?;
    }
    Ok(())
}

fn mark_all(
    reached: &mut [bool],
    waiting: &mut Vec<FuncId>,
    functions: &[FuncId],
) -> Result<(), Exhausted>
    requires { AreInside (length reached.old) functions.now }
    ensures goes { IfOk result (λ _. GoesOn reached.old waiting.old.items reached.new waiting.new.items) }
    ensures marked { IfOk result (λ _. AreMarked reached.new functions.now) }
{
    for function in functions {
        mark(reached, waiting, *function)?;
    }
    Ok(())
}

fn mark_deinits(
    reached: &mut [bool],
    waiting: &mut Vec<FuncId>,
    classes: &[ReadyClass],
) -> Result<(), Exhausted>
    requires { HaveDeinitsInside (length reached.old) classes.now }
    ensures goes { IfOk result (λ _. GoesOn reached.old waiting.old.items reached.new waiting.new.items) }
    ensures marked { IfOk result (λ _. HaveDeinitsMarked reached.new classes.now) }
{
    for class in classes {
        mark_all(reached, waiting, class.deinits.as_slice())?;
    }
    Ok(())
}

/// Marks the functions that some values stand for.
fn mark_named(
    reached: &mut [bool],
    waiting: &mut Vec<FuncId>,
    named: &[Option<FuncId>],
) -> Result<(), Exhausted>
    requires { AreNamedInside (length reached.old) named.now }
    ensures goes { IfOk result (λ _. GoesOn reached.old waiting.old.items reached.new waiting.new.items) }
    ensures marked { IfOk result (λ _. AreNamedMarked reached.new named.now) }
{
    for function in named {
        if let Some(function) = function {
            mark(reached, waiting, *function)?;
        }
    }
    Ok(())
}

/// Marks the functions that a function names.
fn follow_one(
    m: &Module,
    reached: &mut [bool],
    waiting: &mut Vec<FuncId>,
    named: &mut Vec<Option<FuncId>>,
    function: FuncId,
) -> Result<(), Exhausted>
    requires size { length reached.old ≡ length m.now.functions }
    requires names { NamesAreInside m.now }
    ensures { IfOk result (λ _. Follows m.now function reached.old waiting.old.items reached.new waiting.new.items) }
{
    match m.functions.get(function.0 as usize) {
        Some(f) => {
            find_value_functions(named, f)?;
            mark_named(reached, waiting, named.as_slice())
        }
        None => Ok(()),
    }
}

/// Marks what the functions that wait name, and what these name, and so on.
fn follow_all(
    alloc: Global,
    m: &Module,
    reached: &mut [bool],
    mut waiting: Vec<FuncId>,
) -> Result<(), Exhausted>
    requires size { length reached.old ≡ length m.now.functions }
    requires names { NamesAreInside m.now }
    requires but { AreFollowedBut m.now reached.old waiting.items }
    ensures { IfOk result (λ _. Searches m.now reached.old reached.new []) }
{
    let mut named = Vec::new(alloc);
    while let Some(function) = waiting.pop() {
        follow_one(m, reached, &mut waiting, &mut named, function)?;
    }
    Ok(())
}

/// Marks the entry and the deinitialisers, and what these name, and so on.
fn mark_reached(
    alloc: Global,
    m: &Module,
    classes: &[ReadyClass],
    entry: FuncId,
    reached: &mut [bool],
) -> Result<(), Exhausted>
    requires size { length reached.old ≡ length m.now.functions }
    requires none { (g : FuncId) → Reaches reached.old g → ⊥ }
    requires names { NamesAreInside m.now }
    requires deinits { HaveDeinitsInside (length m.now.functions) classes.now }
    requires entry { entry.0 < length m.now.functions }
    ensures { IfOk result (λ _. AreFound m.now classes.now entry reached.new) }
{
    let mut waiting = Vec::new(alloc);
    mark(reached, &mut waiting, entry)?;
    mark_deinits(reached, &mut waiting, classes)?;
    follow_all(alloc, m, reached, waiting)
}

/// Which functions a run from the entry can come to, by their numbers, where these are the classes of the module.
pub fn reached_from(
    alloc: Global,
    m: &Module,
    classes: &[ReadyClass],
    entry: FuncId,
) -> Result<Vec<bool>, Exhausted>
    requires runnable { IsRunnable m.now }
    requires classes { classes.now ≡ map (ready_class (declarations_of m.now)) m.now.decls }
    requires entry { entry.0 < length m.now.functions }
    ensures size { IfOk result (λ reached. length reached.items ≡ length m.now.functions) }
    ensures begun { IfOk result (λ reached. Reaches reached.items entry) }
    ensures closed { IfOk result (λ reached. IsClosed m.now reached.items) }
{
    let count = m.functions.len();
    let mut reached = Vec::with_capacity(alloc, count)?;
    push_times(&mut reached, count, false)?;
    mark_reached(alloc, m, classes, entry, reached.as_mut_slice())?;
    Ok(reached)
}
