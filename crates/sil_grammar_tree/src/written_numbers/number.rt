//! What a spelling writes: a literal of a width, or a small number.
//! A spelling is read once from the left. From 2^64 on a number stays at 2^64, which is out of every range.

ghost use Rattle.std.specs.Prelude.{◌≡◌, ◌^◌, ◌≤◌, min, pos, neg_ℤ};
ghost use Rattle.std.specs.Int.{int_min, int_max};
ghost use Rattle.sil_grammar_tree.specs.WrittenNumbers.Numbers.{number_of, value_of, literal_of, small_of};

/// More than any number that is in range.
const CAP: u128 = 1 << 64;

/// The literal that `spelling` writes for an integer of `width` bits: its signed residue, or `None` where it isn't in range.
///
/// `spelling` is an optional `-` and digits, of any length; `width` is from 1 to 64.
pub fn literal(spelling: &[u8], width: u8) -> Option<i64>
    requires some { 1 ≤ width }
    requires fits { width ≤ 64 }
    ensures { result ≡ literal_of width spelling.now }
{
    let value = value(spelling);
    let modulus = power_of_two(width);
    let half = power_of_two(width - 1);
    if value < -half {
        None
    } else if value < half {
        Some(value as i64)
    } else if value < modulus {
        Some((value - modulus) as i64)
    } else {
        None
    }
}

/// The number from 0 to `largest` that `spelling` writes, or `None`.
///
/// `spelling` is an optional `-` and digits, of any length; `-0` is 0.
pub fn small_number(spelling: &[u8], largest: u16) -> Option<u16>
    ensures { result ≡ small_of largest spelling.now }
{
    let value = value(spelling);
    if value < 0 || value > i128::from(largest) {
        None
    } else {
        Some(value as u16)
    }
}

fn power_of_two(exponent: u8) -> i128
    requires { exponent ≤ 64 }
    ensures { result ≡ pos (2 ^ exponent) }
{
    1 << exponent
}

/// The number that `spelling` writes, or the nearest one from -2^64 to 2^64.
fn value(spelling: &[u8]) -> i128
    ensures { result ≡ int_max (neg_ℤ (pos (2 ^ 64))) (int_min (value_of spelling.now) (pos (2 ^ 64))) }
{
    match spelling {
        [b'-', digits @ ..] => -(number(digits) as i128),
        digits => number(digits) as i128,
    }
}

/// The number that `digits` write, or 2^64 where that is less.
fn number(digits: &[u8]) -> u128
    ensures { result ≡ min (number_of digits.now) (2 ^ 64) }
{
    let mut number = 0_u128;
    for byte in digits {
        number = (number * 10 + u128::from(byte.saturating_sub(b'0'))).min(CAP);
    }
    number
}
