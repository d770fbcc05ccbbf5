//! The module that a text spells, and its type table.

ghost use Rattle.std.specs.Prelude.{IfOk, IfSome};
ghost use Rattle.numbered_form.specs.inner.NumberedForm.{IsNumbered};
ghost use Rattle.sil_types_declarations.specs.TypeDefinitions.Rules.{AreDeclarationsOf};

use sil_ast::{Exhausted, Module};
use sil_grammar::{ReadRefusal, read};
use sil_rules::limits;
use sil_types::{TypeRefusal, TypeTable};
use std::alloc::Global;

/// The module, or nothing where the text is none or is past a limit.
pub(crate) fn module_of(alloc: Global, text: &[u8]) -> Result<Option<Module>, Exhausted>
    ensures { IfOk result (λ m. IfSome m IsNumbered) }
{
    if limits::TEXT_BYTES < text.len() {
        return Ok(None);
    }
    match read(alloc, text) {
        Ok(m) => Ok(Some(m)),
        Err(ReadRefusal::Memory) => Err(Exhausted),
        Err(_refusal) => Ok(None),
    }
}

/// The type table, or nothing where 101 to 104, or a limit on types, is broken.
pub(crate) fn table_of(alloc: Global, m: &Module) -> Result<Option<TypeTable>, Exhausted>
    requires { IsNumbered m.now }
    ensures { IfOk result (λ table. IfSome table (λ t. AreDeclarationsOf t m.now)) }
{
    match TypeTable::build(alloc, m) {
        Ok(table) => Ok(Some(table)),
        Err(TypeRefusal::Memory) => Err(Exhausted),
        Err(_refusal) => Ok(None),
    }
}
