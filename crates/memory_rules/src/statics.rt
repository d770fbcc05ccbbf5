//! Rules 608 and 611, by one pass over the points of a function: they hold at each point, whether a walk reaches it or not.

ghost use Rattle.std.specs.Prelude.{◌≡◌, IfOk};
ghost use Rattle.numbered_form.specs.PointChecks.inner.Numbered.{IsOfNumberedModule};
ghost use Rattle.numbered_form.specs.PointChecks.Points.{IsAt};
ghost use Rattle.numbered_form.specs.PointChecks.inner.Faults.{least};
ghost use Rattle.memory_rules.specs.Broken.{IsFirstStatic};
ghost use Rattle.memory_rules.specs.inner.StaticFaults.{deallocation_faults, no_args_faults, other_by, statics_at};

use crate::lacking::{add_lacking, add_no_slots};
use crate::operations::{is_idle, operations_of};
use crate::overlaps::{add_overlaps, crossed_with, handed_addresses};
use memory_rules_accesses::{Memory, add_addresses, deallocates};
use numbered_form::{PointCheck, PointFault, inst_at, least_fault, rule_fault};
use sil_ast::{Block, BlockId, Exhausted, Function, Inst, PointId, ValueId};
use sil_rules::{Rule, RuleFault};
use std::alloc::Global;

/// What the two rules are decided by: what each value is to memory.
#[derive(Drop)]
struct LocationCheck<'a> {
    alloc: Global,
    memory: &'a Memory,
}

/// The first of what was found and of the fault of an instruction that deallocates what is no slot.
fn add_deallocated(
    alloc: Global,
    m: &Memory,
    point: PointId,
    inst: &Inst,
    found: Option<PointFault>,
) -> Result<Option<PointFault>, Exhausted>
    ensures { IfOk result (λ r. r ≡ least found (deallocation_faults m.now point.block.0 point.index inst.now)) }
{
    if !deallocates(inst) {
        return Ok(found);
    }
    let mut addresses = Vec::new(alloc);
    add_addresses(&mut addresses, inst)?;
    Ok(add_no_slots(m, point, addresses.as_slice(), found))
}

impl PointCheck for LocationCheck<'_> {
    type Room = ();

    ghost fits = { λ _ _. Unit {0} };

    ghost args_faults = { λ _ _. no_args_faults };

    ghost inst_faults = { λ check _. statics_at check.memory.now };

    /// Arguments break neither rule.
    fn add_args(
        &self,
        _f: &Function,
        _number: BlockId,
        _block: &Block,
        found: Option<PointFault>,
    ) -> Option<PointFault> {
        found
    }

    fn add_inst(
        &self,
        _room: &mut (),
        _f: &Function,
        point: PointId,
        inst: &Inst,
        found: Option<PointFault>,
    ) -> Result<Option<PointFault>, Exhausted> {
        if is_idle(inst) {
            return Ok(found);
        }
        let operations = operations_of(self.alloc, inst)?;
        let addresses = handed_addresses(self.alloc, operations.as_slice())?;
        let crossed = add_overlaps(self.memory, point, addresses.as_slice(), found);
        let lacking = add_lacking(self.memory, point, operations.as_slice(), crossed);
        add_deallocated(self.alloc, self.memory, point, inst, lacking)
    }
}

/// The other value that takes part in a fault: of 608 the address that clashes with its subject.
fn other_value(
    alloc: Global,
    m: &Memory,
    f: &Function,
    fault: PointFault,
) -> Result<Option<ValueId>, Exhausted>
    ensures { (i : Inst) → IsAt f.now fault.point.block.0 fault.point.index i → IfOk result (λ o. o ≡ other_by m.now fault.rule i fault.subject) }
{
    if fault.rule.number() != Rule::InoutOverlap.number() {
        return Ok(None);
    }
    match inst_at(f, fault.point) {
        None => Ok(None),
        Some(inst) => crossed_with(alloc, m, inst, fault.subject),
    }
}

/// The first broken one of rules 608 and 611, by value, then by rule, then by point; `None` where the function breaks neither.
pub(crate) fn first_static(
    alloc: Global,
    m: &Memory,
    f: &Function,
) -> Result<Option<RuleFault>, Exhausted>
    requires { IsOfNumberedModule f.now }
    ensures { IfOk result (IsFirstStatic m.now f.now) }
{
    let check = LocationCheck { alloc, memory: m };
    match least_fault(&check, &mut (), f)? {
        None => Ok(None),
        Some(fault) => {
            let other = other_value(alloc, m, f, fault)?;
            Ok(Some(rule_fault(alloc, fault, other)))
        }
    }
}
