//! The bases of some operands together.

ghost use Rattle.std.specs.Prelude.{◌≡◌, ℕ, ◌<◌, ◌||◌, ◌⊎◌, IfOk, Bool, length};
ghost use Rattle.ownership_kinds_chains.specs.OwnershipChains.Facts as facts;
ghost use Rattle.ownership_kinds_chains.specs.OwnershipChains.Facts.{bases_together, known_or, listed, told_at};
ghost use Rattle.ownership_kinds_chains.specs.OwnershipChains.inner.Settling.{AreListed};
ghost use Rattle.ownership_kinds_chains.specs.OwnershipChains.inner.Union.{IsTurn};

use crate::ownership_chains::facts::{Facts, bases_of, is_guaranteed, kind_at};
use sil_ast::{Exhausted, ShortList, ValueId};
use std::alloc::Global;

/// The least of what two lists have left, and how far each is taken then.
#[derive(Clone, Copy)]
struct Turn {
    value: ValueId,
    one: usize,
    other: usize,
}

/// The next value of two lists that have `i` and `j` values taken: the lesser of the two that come, or both where they are the same.
fn next_turn(one: &[ValueId], i: usize, other: &[ValueId], j: usize) -> Turn
    requires { (i < length one.now) ⊎ (j < length other.now) }
    ensures { IsTurn one.now i other.now j result }
{
    if j >= other.len() || (i < one.len() && one[i].0 < other[j].0) {
        Turn {
            value: one[i],
            one: i + 1,
            other: j,
        }
    } else if i >= one.len() || other[j].0 < one[i].0 {
        Turn {
            value: other[j],
            one: i,
            other: j + 1,
        }
    } else {
        Turn {
            value: one[i],
            one: i + 1,
            other: j + 1,
        }
    }
}

/// The values of two lists in ascending order, in one such list.
fn union(
    alloc: Global,
    one: &[ValueId],
    other: &[ValueId],
) -> Result<ShortList<ValueId, 4>, Exhausted>
    ensures { IfOk result (λ all. (count : ℕ) (p q : ℕ → Bool) → one.now ≡ listed count p → other.now ≡ listed count q → all ≡ listed count (λ b. p b || q b)) }
{
    let mut all = ShortList::new(alloc);
    let mut i = 0;
    let mut j = 0;
    while i < one.len() || j < other.len() {
        let turn = next_turn(one, i, other, j);
        all.push(turn.value)?;
        i = turn.one;
        j = turn.other;
    }
    Ok(all)
}

/// The bases that an operand hands on: of a Guaranteed one alone, or whatever its kind is.
fn handed_on(table: &[Option<Facts>], operand: ValueId, only_guaranteed: bool) -> &[ValueId]
    ensures { result.now ≡ facts.handed_on only_guaranteed (known_or (told_at table.now) operand) }
{
    if only_guaranteed && !is_guaranteed(kind_at(table, operand)) {
        &[]
    } else {
        bases_of(table, operand)
    }
}

/// The bases that the operands hand on, together, in ascending order.
pub(crate) fn together(
    alloc: Global,
    table: &[Option<Facts>],
    operands: &[ValueId],
    only_guaranteed: bool,
) -> Result<ShortList<ValueId, 4>, Exhausted>
    ensures { IfOk result (λ all. (count : ℕ) → AreListed count (told_at table.now)
        → all ≡ bases_together count only_guaranteed (known_or (told_at table.now)) operands.now) }
{
    let mut all = ShortList::new(alloc);
    for operand in operands {
        let handed = handed_on(table, *operand, only_guaranteed);
        all = union(alloc, all.as_slice(), handed)?;
    }
    Ok(all)
}
