//! The first rule that is broken at a place: a function, an instruction or a vtable. How a rule is decided is not said here.

ghost use Rattle.std.specs.Prelude.{◌≡◌};
ghost use Rattle.sil_types.specs.Typing.FormRules as forms;
ghost use Rattle.sil_types.specs.Typing.OperandTypes as operands;
ghost use Rattle.sil_types.specs.Typing.ResultCounts as results;
ghost use Rattle.sil_types.specs.Typing.Values.{value_types};
ghost use Rattle.type_check.specs.inner.Body.{AreEdgesInRange, IsBody};
ghost use Rattle.type_check.specs.inner.FirstFault.{judged_function, judged_point, judged_use, judged_vtable};
ghost use Rattle.type_check.specs.inner.Firsts.{first_broken};
ghost use Rattle.sil_types.specs.sil_types_declarations.TypeDefinitions.Declarations.{declarations_of};
ghost use Rattle.type_check_values.specs.TypingValues.inner.Given.{given_count};

use crate::body::Body;
use crate::typing_forms::{has_wrong_cases, has_wrong_qualifier, is_of_other_form, mixes_forms};
use sil_ast::{Form, Function, Inst, Module, Vtable};
use sil_rules::Rule;
use sil_types::TypeTable;
use type_check_values::{
    calls_no_function, differs_from_signature, goes_to_entry, has_wrong_deinitialiser,
    has_wrong_edge_arguments, has_wrong_operand_type, has_wrong_result_count, has_wrong_signature,
    is_no_output_call, lets_address_escape,
};

/// The first rule that the function itself breaks. `first` is the form of the module's first function with a body.
pub(crate) fn rule_at_function(
    table: &TypeTable,
    m: &Module,
    first: Option<Form>,
    f: &Function,
) -> Option<Rule>
    requires table { table.now ≡ declarations_of m.now }
    requires first { first ≡ forms.first_form m.now }
    ensures { result ≡ first_broken (judged_function m.now f.now) }
{
    if is_no_output_call(f) {
        return Some(Rule::External);
    }
    if has_wrong_signature(table, f) {
        return Some(Rule::Signature);
    }
    if mixes_forms(first, f) {
        return Some(Rule::MixedForms);
    }
    if lets_address_escape(f) {
        return Some(Rule::AddressEscapes);
    }
    None
}

fn is_wrong_operand_type(body: &Body<'_, '_>, given: Option<usize>, inst: &Inst) -> bool
    requires body { IsBody body.now }
    requires given { given ≡ given_count body.now.table.now inst.now }
    ensures { result ≡ operands.has_wrong_operand_type (declarations_of body.now.module.now)
        (value_types (declarations_of body.now.module.now) body.now.function.now) inst.now }
{
    has_wrong_operand_type(given, body.facts.given.types.as_slice(), inst)
}

fn is_wrong_result_count(body: &Body<'_, '_>, given: Option<usize>, inst: &Inst) -> bool
    requires body { IsBody body.now }
    requires given { given ≡ given_count body.now.table.now inst.now }
    ensures { result ≡ results.has_wrong_result_count (declarations_of body.now.module.now) inst.now }
{
    has_wrong_result_count(given, inst)
}

/// The first rule that an instruction of the body breaks, at a point. `given` is how many results its row gives.
pub(crate) fn rule_at_point(
    body: &Body<'_, '_>,
    block: u32,
    index: u32,
    given: Option<usize>,
    inst: &Inst,
) -> Option<Rule>
    requires body { IsBody body.now }
    requires given { given ≡ given_count body.now.table.now inst.now }
    requires edges { AreEdgesInRange body.now.function.now inst.now }
    ensures { result ≡ first_broken (judged_point body.now.module.now body.now.function.now block index inst.now) }
{
    if is_wrong_operand_type(body, given, inst) {
        return Some(Rule::OperandType);
    }
    if is_wrong_result_count(body, given, inst) {
        return Some(Rule::ResultCount);
    }
    if has_wrong_edge_arguments(body.function, inst) {
        return Some(Rule::EdgeArguments);
    }
    rule_of_use(body, block, index, inst)
}

/// The first rule that the instruction breaks by what it calls, where it stands and where it goes.
fn rule_of_use(body: &Body<'_, '_>, block: u32, index: u32, inst: &Inst) -> Option<Rule>
    requires body { IsBody body.now }
    requires edges { AreEdgesInRange body.now.function.now inst.now }
    ensures { result ≡ first_broken (judged_use body.now.module.now body.now.function.now block index inst.now) }
{
    let f = body.function;
    let functions = body.facts.functions.as_slice();
    if calls_no_function(functions, inst) {
        return Some(Rule::Callee);
    }
    if differs_from_signature(body.module, f, functions, inst) {
        return Some(Rule::Signature);
    }
    if is_of_other_form(f, block as usize, index as usize, inst) {
        return Some(Rule::MixedForms);
    }
    if has_wrong_cases(body.table, f, body.facts.incoming.as_slice(), inst) {
        return Some(Rule::SwitchCases);
    }
    if goes_to_entry(inst) {
        return Some(Rule::EntryHasPredecessor);
    }
    if has_wrong_qualifier(body.table, f, inst) {
        return Some(Rule::Qualifier);
    }
    None
}

/// The first rule that the vtable breaks.
pub(crate) fn rule_at_vtable(m: &Module, vtable: &Vtable) -> Option<Rule>
    ensures { result ≡ first_broken (judged_vtable m.now vtable.now) }
{
    if has_wrong_deinitialiser(m, vtable) {
        return Some(Rule::DeinitSignature);
    }
    None
}
