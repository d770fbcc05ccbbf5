//! Moving bytes from one slice to another.

ghost use Rattle.std.specs.Prelude.{◌≡◌, ◌++◌, length, min, take, drop};

/// Copies as many bytes as `from` has and `to` has room for to the front of `to`, and answers how many.
pub(crate) fn copy_front(from: &[u8], to: &mut [u8]) -> usize
    ensures count { result ≡ min (length to.old) (length from.now) }
    ensures copied { to.new ≡ take result from.now ++ drop result to.old }
{
    let count = to.len().min(from.len());
    to[..count].copy_from_slice(&from[..count]);
    count
}
