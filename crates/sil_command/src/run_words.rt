//! The options of `run`: the bound on turns, and the name of the function with which the run begins.

ghost use Rattle.std.specs.Prelude.{◌≡◌, ℕ, MatchOption, option_map};
ghost use Rattle.sil_command.specs.Words.{IsBound, IsBoundBy, entry_by};

/// The bound on turns where none is given.
pub const DEFAULT_TURNS: u32 = 100_000;

/// The largest bound on turns.
pub const MOST_TURNS: u32 = 1_000_000;

/// The most digits that a bound on turns is written with.
pub const BOUND_DIGITS: usize = 7;

/// The bound on turns that the value of `--turns` gives, if it gives one.
pub(crate) fn bound_of(value: Option<&str>) -> Option<u32>
    ensures { MatchOption result ((n : ℕ) → ¬ IsBoundBy (option_map (λ v. v.now) value.entry) n) (IsBoundBy (option_map (λ v. v.now) value.entry)) }
{
    match value {
        Some(digits) => written_bound(digits),
        None => Some(DEFAULT_TURNS),
    }
}

fn written_bound(digits: &str) -> Option<u32>
    ensures { MatchOption result ((n : ℕ) → ¬ IsBound digits.now n) (IsBound digits.now) }
{
    if digits.len() > BOUND_DIGITS || digits.starts_with('+') {
        return None;
    }
    match digits.parse::<u32>() {
        Ok(bound) if bound >= 1 && bound <= MOST_TURNS => Some(bound),
        _ => None,
    }
}

/// The name that the value of `--entry` gives, and `main` without one.
pub(crate) fn entry_name(value: Option<&str>) -> &str
    ensures { result.now ≡ entry_by (option_map (λ v. v.now) value.entry) }
{
    match value {
        Some(name) => name,
        None => "main",
    }
}
