//! 304: an operand has a kind that the instruction doesn't take.

ghost use Rattle.std.specs.Prelude.{◌≡◌, ◌++◌, OnOk};
ghost use Rattle.std.specs.List.{flat_map};
ghost use Rattle.sil_cfg_items.specs.Roles.{taken_along};
ghost use Rattle.numbered_form.specs.PointChecks.inner.Faults.{least};
ghost use Rattle.ownership_kinds.specs.inner.Faults.{taken_faults};
ghost use Rattle.ownership_kinds.specs.inner.Known.{kind_told};
ghost use Rattle.ownership_kinds.specs.Statics as statics;

use crate::kinds::{is_guaranteed, is_owned};
use instruction_table::Role;
use numbered_form::{Borrow, PointFault, is_borrow, lesser};
use ownership_kinds_chains::{Facts, kind_of};
use sil_ast::{Edge, Exhausted, Inst, PointId};
use sil_cfg_items::{Taken, add_taken_along, add_taken_by};
use sil_rules::Rule;
use sil_types_declarations::Kind;

fn add_all_along(taken: &mut Vec<Taken>, edges: &[Edge]) -> Result<(), Exhausted>
    ensures { OnOk result (taken.new.items ≡ taken.old.items ++ flat_map taken_along edges.now) }
{
    for edge in edges {
        add_taken_along(taken, edge)?;
    }
    Ok(())
}

/// Makes `taken` what an instruction takes: its operands, and what its edges hand over.
pub(crate) fn take_all(taken: &mut Vec<Taken>, inst: &Inst) -> Result<(), Exhausted>
    ensures { OnOk result (taken.new.items ≡ statics.all_taken inst.now) }
{
    taken.clear();
    add_taken_by(taken, inst)?;
    add_all_along(taken, inst.edges.as_slice())
}

/// Whether the role doesn't take the kind. The end of a scope takes the result of a borrow itself alone.
fn is_mismatch(is_borrow: bool, role: Role, kind: Option<Kind>) -> bool
    ensures { result ≡ statics.is_mismatch is_borrow role kind }
{
    match role {
        Role::Consumed => is_guaranteed(kind),
        Role::Lent => is_owned(kind),
        Role::ScopeRole => !is_borrow,
        Role::Used
        | Role::Forwarded
        | Role::AddressRole
        | Role::AnyRole
        | Role::ByParameter
        | Role::Counted => false,
    }
}

fn add_mismatch(
    facts: &[Option<Facts>],
    borrows: &[Borrow],
    point: PointId,
    taken: Taken,
    found: Option<PointFault>,
) -> Option<PointFault>
    ensures { result ≡ least found (taken_faults (kind_told facts.now) borrows.now point.block.0 point.index taken) }
{
    let kind = kind_of(facts, taken.value);
    if is_mismatch(is_borrow(borrows, taken.value), taken.role, kind) {
        return lesser(
            found,
            PointFault {
                rule: Rule::KindMismatch,
                subject: taken.value,
                point,
            },
        );
    }
    found
}

/// The first of what was found and of these faults of what the instruction at the point takes.
pub(crate) fn add_mismatches(
    facts: &[Option<Facts>],
    borrows: &[Borrow],
    point: PointId,
    taken: &[Taken],
    mut found: Option<PointFault>,
) -> Option<PointFault>
    ensures { result ≡ least found (flat_map (taken_faults (kind_told facts.now) borrows.now point.block.0 point.index) taken.now) }
{
    for one in taken {
        found = add_mismatch(facts, borrows, point, *one, found);
    }
    found
}
