//! What reads bytes from outside, one call at a time.

ghost use Rattle.std.specs.Prelude.{ℕ, ◌≤◌, List, Option, length, IfOk, OnErr};
ghost use Rattle.std.specs.Io.KnownBytes.{ReadConsumes};

use std::io;

/// What gives bytes from outside: one call is one read.
///
/// Contracts see a call as a fact of the reader's own. Only a call of `read_once` shows such a fact, and it shows one,
/// so a function that is proved to have read once has done so.
pub trait Reader {
    // The bytes that reads will give from here on, where they are known.
    ghost left: { Self → Option (List ℕ) };

    // `reads old before after n new`: one read with the buffer `before` gave n bytes and left the buffer `after`.
    ghost reads: { Self → List ℕ → List ℕ → ℕ → Self → Type 0 };

    // `failed old before after new`: one read with the buffer `before` failed and left the buffer `after`.
    ghost failed: { Self → List ℕ → List ℕ → Self → Type 0 };

    /// Reads once, into the front of `buf`, and answers how many bytes were read. With room for some, 0 is the end.
    fn read_once(&mut self, buf: &mut [u8]) -> io::Result<usize>
        ensures within { IfOk result (λ n. n ≤ length buf.new) }
        ensures bytes { ReadConsumes (left self.old) (left self.new) result buf.new }
        ensures one_read { IfOk result (λ n. reads self.old buf.old buf.new n self.new) }
        ensures one_failure { OnErr result (failed self.old buf.old buf.new self.new) };
}
