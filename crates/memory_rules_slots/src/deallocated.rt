//! Which slots are deallocated at all: no other is ever deallocated before a later one.

ghost use Rattle.std.specs.Prelude.{◌≢◌, ℕ, IfOk, All};
ghost use Rattle.sil_ast.specs.declared.place.ValueId as value;
ghost use Rattle.memory_rules_accesses.specs.reach_engine_marks.PathPatterns.inner.Reads.{accesses_at};
ghost use Rattle.memory_rules_accesses.specs.declared.access.Access.TheVariants as kinds;
ghost use Rattle.memory_rules_slots.specs.inner.Trust.{IsTrusted, Keeps};

use crate::doubts::Doubts;
use memory_rules_accesses::Access;
use sil_ast::Exhausted;
use std::alloc::Global;

/// Adds the slot that the access deallocates, if it does.
fn add_one(access: &Access, found: &mut Doubts)
    ensures keeps { Keeps found.old found.new }
    ensures added { (v : value.ValueId) → IsTrusted found.new v → access.now ≢ kinds.Deallocates v }
{
    match *access {
        Access::Deallocates(slot) => found.add(slot),
        _ => {}
    }
}

/// Adds each slot that one of the accesses deallocates.
fn add_deallocated(accesses: &[Access], found: &mut Doubts)
    ensures keeps { Keeps found.old found.new }
    ensures added { (v : value.ValueId) → IsTrusted found.new v → All (λ x. x ≢ kinds.Deallocates v) accesses.now }
{
    for access in accesses {
        add_one(access, found);
    }
}

/// The slots that some access deallocates, among so many values.
pub fn deallocated_slots(
    alloc: Global,
    values: usize,
    accesses: &[Vec<Access>],
) -> Result<Doubts, Exhausted>
    ensures { IfOk result (λ found. (v : value.ValueId) → IsTrusted found v → (i : ℕ) → All (λ x. x ≢ kinds.Deallocates v) (accesses_at accesses.now i)) }
{
    let mut found = Doubts::none(alloc, values)?;
    for item in accesses {
        add_deallocated(item.as_slice(), &mut found);
    }
    Ok(found)
}
