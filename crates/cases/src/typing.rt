//! What the check of types answers to a text. It goes into lowered functions too, which `check` refuses as a whole.

ghost use Rattle.numbered_form.specs.inner.NumberedForm.{IsNumbered};
ghost use Rattle.sil_types_declarations.specs.TypeDefinitions.Rules.{AreDeclarationsOf};

use crate::answer::Answer;
use sil_ast::{Exhausted, FuncId, Module, PointId};
use sil_rules::Rule;
use sil_types::TypeTable;
use std::alloc::Global;
use type_check::{CheckRefusal, check};

/// The line `typed` with status 0, or with status 1 what is wrong with the module.
pub(crate) fn answer_on_types(
    alloc: Global,
    m: &Module,
    table: &TypeTable,
    written: &mut Answer,
) -> Result<u8, Exhausted>
    requires numbered { IsNumbered m.now }
    requires table { AreDeclarationsOf table.now m.now }
{
    match check(alloc, m, table) {
        Ok(()) => Ok(written.line("typed", 0)),
        Err(CheckRefusal::Memory) => Err(Exhausted),
        Err(
            CheckRefusal::Rule {
                rule,
                function,
                point,
                vtable,
            },
        ) => {
            add_rule(written, rule, function, point, vtable);
            Ok(1)
        }
    }
}

/// The line with a rule, and each part of the place that the refusal names.
fn add_rule(
    written: &mut Answer,
    rule: Rule,
    function: Option<FuncId>,
    point: Option<PointId>,
    vtable: Option<u32>,
) {
    written.add_number("", u64::from(rule.number()));
    if let Some(function) = function {
        written.add_number(" function ", u64::from(function.0));
    }
    if let Some(point) = point {
        written.add_number(" bb", u64::from(point.block.0));
        written.add_number(":", u64::from(point.index));
    }
    if let Some(vtable) = vtable {
        written.add_number(" vtable ", u64::from(vtable));
    }
    written.add("\n");
}
