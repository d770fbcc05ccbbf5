//! What builtin operations give.

ghost use Rattle.std.specs.Prelude.{◌≡◌, ◌<◌, ◌≤◌, ◌^◌, ℤ, ◌+ℤ◌, ◌-ℤ◌, ◌*ℤ◌, not};
ghost use Rattle.count_machine_model.specs.holder_model.Builtins.{bit, signed};
ghost use Rattle.count_machine_model.specs.MachineSteps.Computing.{computed_leaves, overflow_leaves};
ghost use Rattle.numbered_form.specs.inner.Literals.{is_residue};
ghost use Rattle.count_heap.specs.sil_types.Typing.Builtins.{bits};
ghost use Rattle.count_machine_leaves.specs.LeafWindows.inner.Computed.{leaves_of, signed_by};

use instruction_table::{Operation, Width};

/// One integer or two.
#[derive(Clone, Copy)]
pub enum Computed {
    One(i64),
    Two(i64, i64),
}

/// A set bit is -1, and a clear one is 0.
#[inline]
fn bit(is_set: bool) -> i64
    ensures { result ≡ bit is_set }
{
    if is_set { -1 } else { 0 }
}

/// The signed residue of a modulus, which is twice a number.
#[inline]
fn signed_by(half: u32, n: i64) -> i64
    requires some { 0 < half }
    requires few { half ≤ 2 ^ 31 }
    ensures { result ≡ signed_by half n }
{
    let half = half as i64;
    let rest = n.rem_euclid(2 * half);
    if rest < half { rest } else { rest - 2 * half }
}

/// The signed residue of a width.
#[inline]
fn narrow(width: Width, n: i64) -> i64
    ensures { result ≡ signed (bits width) n }
{
    match width {
        Width::Int1 => signed_by(1, n),
        Width::Int8 => signed_by(1 << 7, n),
        Width::Int16 => signed_by(1 << 15, n),
        Width::Int32 => signed_by(1 << 31, n),
        Width::Int64 => n,
    }
}

/// An exact result in a width, and whether it isn't in range. It comes as its residue of 64 bits, and whether it isn't in their range.
#[inline]
fn overflowing(width: Width, low: i64, lost: bool) -> Computed
    ensures { (n : ℤ) → low ≡ signed 64 n → lost ≡ not (is_residue 64 n) → leaves_of result ≡ overflow_leaves (bits width) n }
{
    let short = narrow(width, low);
    Computed::Two(short, bit(lost || short != low))
}

#[inline]
fn added(width: Width, a: i64, b: i64) -> Computed
    ensures { leaves_of result ≡ overflow_leaves (bits width) (a +ℤ b) }
{
    let (low, lost) = a.overflowing_add(b);
    overflowing(width, low, lost)
}

#[inline]
fn subtracted(width: Width, a: i64, b: i64) -> Computed
    ensures { leaves_of result ≡ overflow_leaves (bits width) (a -ℤ b) }
{
    let (low, lost) = a.overflowing_sub(b);
    overflowing(width, low, lost)
}

#[inline]
fn multiplied(width: Width, a: i64, b: i64) -> Computed
    ensures { leaves_of result ≡ overflow_leaves (bits width) (a *ℤ b) }
{
    let (low, lost) = a.overflowing_mul(b);
    overflowing(width, low, lost)
}

/// What an operation gives of two integers.
#[inline]
pub fn compute_builtin(operation: Operation, width: Width, a: i64, b: i64) -> Computed
    ensures { leaves_of result ≡ computed_leaves operation (bits width) a b }
{
    match operation {
        Operation::AddWithOverflow => added(width, a, b),
        Operation::SubWithOverflow => subtracted(width, a, b),
        Operation::MulWithOverflow => multiplied(width, a, b),
        Operation::Equal => Computed::One(bit(a == b)),
        Operation::NotEqual => Computed::One(bit(a != b)),
        Operation::Less => Computed::One(bit(a < b)),
        Operation::LessOrEqual => Computed::One(bit(a <= b)),
        Operation::Greater => Computed::One(bit(a > b)),
        Operation::GreaterOrEqual => Computed::One(bit(a >= b)),
        Operation::And => Computed::One(narrow(width, a & b)),
        Operation::Or => Computed::One(narrow(width, a | b)),
        Operation::Xor => Computed::One(narrow(width, a ^ b)),
    }
}
