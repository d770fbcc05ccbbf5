//! What is known of the values and blocks of one function.

ghost use Rattle.std.specs.Prelude.{OnOk};
ghost use Rattle.type_check.specs.inner.Facts.{AreFactsOf};

use crate::typing_forms::count_incoming;
use sil_ast::{Exhausted, FuncId, Function};
use sil_types::TypeTable;
use std::alloc::Global;
use type_check_values::{GivenTypes, find_value_functions, find_value_types};

/// What the rows give: by value its type, by instruction how many results. By value the function that it stands for, and by block
/// how many edges go to it, 2 for more than one.
#[derive(Drop)]
pub(crate) struct FunctionFacts<'a> {
    pub given: GivenTypes<'a>,
    pub functions: Vec<Option<FuncId>>,
    pub incoming: Vec<u8>,
}

impl<'a> FunctionFacts<'a> {
    /// Those of no function.
    pub(crate) fn new(alloc: Global) -> FunctionFacts<'a> {
        FunctionFacts {
            given: GivenTypes::new(alloc),
            functions: Vec::new(alloc),
            incoming: Vec::new(alloc),
        }
    }
}

/// Makes of `facts`, in their memory, those of a function, in one pass for each.
pub(crate) fn find_facts<'a>(
    facts: &mut FunctionFacts<'a>,
    table: &'a TypeTable,
    f: &'a Function,
) -> Result<(), Exhausted>
    ensures { OnOk result (AreFactsOf table.now f.now facts.new) }
{
    find_value_types(&mut facts.given, table, f)?;
    find_value_functions(&mut facts.functions, f)?;
    count_incoming(&mut facts.incoming, f)
}
