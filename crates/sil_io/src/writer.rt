//! What writes bytes to the outside, one call at a time.

ghost use Rattle.std.specs.Prelude.{ℕ, ◌≤◌, List, Option, length, IfOk, OnOk, OnErr};
ghost use Rattle.std.specs.Io.KnownBytes.{Keeps, WriteAppends};

use std::io;

/// What takes bytes to the outside: one call is one write, or one flush.
///
/// Contracts see a call as a fact of the writer's own. Only a call of `write_once` or of `flush_once` shows such a fact,
/// and it shows one, so a function that is proved to have written once, and then flushed once, has done so.
pub trait Writer {
    // The bytes that the writer holds, where they are known.
    ghost contents: { Self → Option (List ℕ) };

    // `writes old given n new`: one write was given these bytes, and took n of them.
    ghost writes: { Self → List ℕ → ℕ → Self → Type 0 };

    // `failed old given new`: one write was given these bytes, and failed.
    ghost failed: { Self → List ℕ → Self → Type 0 };

    // `flushed old new`: one flush went well.
    ghost flushed: { Self → Self → Type 0 };

    // `flush_failed old new`: one flush failed.
    ghost flush_failed: { Self → Self → Type 0 };

    /// Writes once, and answers how many of the bytes were taken.
    fn write_once(&mut self, bytes: &[u8]) -> io::Result<usize>
        ensures within { IfOk result (λ n. n ≤ length bytes.now) }
        ensures bytes { WriteAppends (contents self.old) (contents self.new) result bytes.now }
        ensures one_write { IfOk result (λ n. writes self.old bytes.now n self.new) }
        ensures one_failure { OnErr result (failed self.old bytes.now self.new) };

    /// Flushes once.
    fn flush_once(&mut self) -> io::Result<()>
        ensures bytes { Keeps (contents self.old) (contents self.new) }
        ensures one_flush { OnOk result (flushed self.old self.new) }
        ensures one_failure { OnErr result (flush_failed self.old self.new) };
}
