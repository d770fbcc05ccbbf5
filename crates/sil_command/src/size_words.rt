//! The number behind `generate`: how many functions the module has besides `main`.

ghost use Rattle.std.specs.Prelude.{ℕ, MatchOption};
ghost use Rattle.sil_command.specs.Words.{IsSize};

/// The most functions that a generated module has besides `main`.
pub const MOST_FUNCTIONS: u32 = 500;

/// The most digits that their number is written with.
pub const SIZE_DIGITS: usize = 3;

/// The size that these digits write, if they write one.
pub(crate) fn written_size(digits: &str) -> Option<u32>
    ensures { MatchOption result ((n : ℕ) → ¬ IsSize digits.now n) (IsSize digits.now) }
{
    if digits.len() > SIZE_DIGITS || digits.starts_with('+') {
        return None;
    }
    match digits.parse::<u32>() {
        Ok(size) if size >= 1 && size <= MOST_FUNCTIONS => Some(size),
        _ => None,
    }
}
