//! What the rules on kinds ask at each point of a function, and the first that is broken.

ghost use Rattle.std.specs.Prelude.{◌≡◌, IfNone, IfOk, IfSome};
ghost use Rattle.std.specs.List.{flat_map};
ghost use Rattle.numbered_form.specs.Numbering.{AreCountedFrom, values_of};
ghost use Rattle.numbered_form.specs.PointChecks.inner.Faults.{least};
ghost use Rattle.numbered_form.specs.PointChecks.inner.Numbered.{IsOfNumberedModule};
ghost use Rattle.ownership_kinds_origins.specs.inner.Tables.{AreSwitches};
ghost use Rattle.ownership_kinds.specs.inner.Faults.{arg_faults, args_faults, inst_faults};
ghost use Rattle.ownership_kinds.specs.inner.Known.{IsKnown, kind_told};
ghost use Rattle.ownership_kinds.specs.inner.Ends.{IsFirstFault};
ghost use Rattle.ownership_kinds.specs.Statics.{HasKinds};

use crate::annotations::add_annotation;
use crate::defaults::add_lacking;
use crate::mismatch::{add_mismatches, take_all};
use crate::mixed::add_mixed;
use crate::rings::{add_ring, add_rings};
use numbered_form::{Borrow, PointCheck, PointFault, least_fault};
use ownership_kinds_chains::Facts;
use ownership_kinds_origins::{Switched, switch_of};
use sil_ast::{Block, BlockArg, BlockId, Exhausted, Function, Inst, PointId, ValueId};
use sil_cfg_items::Taken;
use sil_types::TypeTable;
use std::alloc::Global;

/// What the rules on kinds are decided by.
#[derive(Drop)]
pub(crate) struct KindCheck<'a> {
    pub types: &'a TypeTable,
    /// By value its kind and bases, where they are known.
    pub facts: &'a [Option<Facts>],
    /// By value what it borrows.
    pub borrows: &'a [Borrow],
    /// By block the switch that goes to it.
    pub switches: &'a [Option<Switched>],
    /// The first value on a ring of either kind of chain.
    pub ring: Option<ValueId>,
}

/// The first of what was found and of the faults of a block's arguments.
fn add_each(
    check: &KindCheck<'_>,
    switched: Option<Switched>,
    block: BlockId,
    args: &[BlockArg],
    mut found: Option<PointFault>,
) -> Option<PointFault>
    ensures { result ≡ least found (flat_map (arg_faults (kind_told check.now.facts.now) check.now.ring check.now.types.now switched block.0) args.now) }
{
    for arg in args {
        found = add_ring(check.ring, PointId { block, index: 0 }, arg.value, found);
        found = add_annotation(check.facts, check.types, switched, block, arg, found);
    }
    found
}

impl PointCheck for KindCheck<'_> {
    /// What an instruction takes.
    type Room = Vec<Taken>;

    ghost fits = { λ check f. AreSwitches f check.switches.now };

    ghost args_faults = { λ check. args_faults (kind_told check.facts.now) check.ring check.types.now };

    ghost inst_faults = { λ check. inst_faults (kind_told check.facts.now) check.ring check.borrows.now };

    fn add_args(
        &self,
        _f: &Function,
        number: BlockId,
        block: &Block,
        found: Option<PointFault>,
    ) -> Option<PointFault> {
        let switched = switch_of(self.switches, number.0 as usize);
        add_each(self, switched, number, block.args.as_slice(), found)
    }

    fn add_inst(
        &self,
        taken: &mut Vec<Taken>,
        f: &Function,
        point: PointId,
        inst: &Inst,
        found: Option<PointFault>,
    ) -> Result<Option<PointFault>, Exhausted> {
        take_all(taken, inst)?;
        let found = add_rings(self.ring, point, inst.results.as_slice(), found);
        let found = add_mixed(self.facts, point, inst, found);
        let found = add_mismatches(self.facts, self.borrows, point, taken.as_slice(), found);
        Ok(add_lacking(self.facts, f, point, inst, found))
    }
}

/// The first broken rule on kinds, by value, then by rule, then by point; `None` where the function breaks none.
pub(crate) fn first_broken(
    alloc: Global,
    check: &KindCheck<'_>,
    f: &Function,
) -> Result<Option<PointFault>, Exhausted>
    requires counted { AreCountedFrom 0 (values_of f.now.blocks) }
    requires of_module { IsOfNumberedModule f.now }
    requires known { IsKnown check.now.types.now f.now check.now }
    ensures some { IfOk result (λ r. IfSome r (IsFirstFault check.now.types.now f.now)) }
    ensures none { IfOk result (λ r. IfNone r (HasKinds check.now.types.now f.now)) }
{
    let mut taken = Vec::new(alloc);
    least_fault(check, &mut taken, f)
}
