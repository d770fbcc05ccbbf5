//! The function with which a run begins.

ghost use Rattle.std.specs.Prelude.{◌≡◌, ◌<◌, ◌^◌, MatchOption, length, position};
ghost use Rattle.holder_model.specs.Outcomes as outcomes;
ghost use Rattle.module_runner.specs.Entries.{HasEntry, IsEntry};
ghost use Rattle.module_runner.specs.inner.Entries as entries;

use argument_conventions::argument_count;
use sil_ast::{FuncId, Function, Module};

/// A function of a module with which a run may begin.
#[derive(Clone, Copy)]
pub(crate) struct Entry<'m> {
    pub(crate) id: FuncId,
    pub(crate) function: &'m Function,
}

/// Whether the function has a body and no arguments, the places of `@out` results counted.
fn may_start(function: &Function) -> bool
    ensures { result ≡ outcomes.may_start function.now }
{
    !function.blocks.is_empty() && argument_count(&function.signature) == 0
}

fn is_entry(function: &Function, name: &[u8]) -> bool
    ensures { result ≡ entries.is_entry name.now function.now }
{
    function.name.as_slice() == name && may_start(function)
}

fn place_named(functions: &[Function], name: &[u8]) -> Option<usize>
    ensures { result ≡ position (entries.is_entry name.now) functions.now }
{
    functions
        .iter()
        .position(|function| is_entry(function, name))
}

/// The function of this name with which a run may begin.
pub(crate) fn entry_named<'m>(m: &'m Module, name: &[u8]) -> Option<Entry<'m>>
    requires { length m.now.functions < 2 ^ 32 }
    ensures { MatchOption result (¬ HasEntry m.now name.now) (λ e. IsEntry m.now name.now e.id e.function.now) }
{
    let functions = m.functions.as_slice();
    let place = place_named(functions, name)?;
    Some(Entry {
        id: FuncId(place as u32),
        function: &functions[place],
    })
}
