//! What gives bytes.

ghost use Rattle.std.specs.Prelude.{◌≡◌, ℕ, ◌<◌, ◌≤◌, List, Option, length, take, IfOk, OnOk, OnErr};
ghost use Rattle.std.specs.Io.KnownBytes.{Consumes, Keeps, IsAtEnd};
ghost use Rattle.sil_io.specs.Count.{MayFail};

use crate::failed::Failed;

/// A place to take bytes from. Contracts see the bytes that are left, where the source tells them, and how often it failed.
pub trait Source {
    // The bytes that calls will give from here on, where the source tells them.
    ghost left: { Self → Option (List ℕ) };

    // How many calls failed.
    ghost faults: { Self → ℕ };

    // `gave old bytes new`: one call gave these bytes, none at the end.
    ghost gave: { Self → List ℕ → Self → Type 0 };

    // `missed old new`: one call failed.
    ghost missed: { Self → Self → Type 0 };

    /// Moves the first bytes left into the front of `buf`, and answers how many. 0 is the end.
    /// What stands in `buf` behind them is free. `Failed` comes only with a fault of the source, and takes no byte.
    fn take(&mut self, buf: &mut [u8]) -> Result<usize, Failed>
        requires { 0 < length buf.old }
        ensures within { IfOk result (λ n. n ≤ length buf.new) }
        ensures taken { IfOk result (λ n. Consumes (left self.old) (left self.new) (take n buf.new)) }
        ensures end { IfOk result (λ n. n ≡ 0 → IsAtEnd (left self.new)) }
        ensures one_call { IfOk result (λ n. gave self.old (take n buf.new) self.new) }
        ensures no_fault { OnOk result (faults self.new ≡ faults self.old) }

        ensures nothing_taken { OnErr result (Keeps (left self.old) (left self.new)) }
        ensures one_failure { OnErr result (missed self.old self.new) }
        ensures fault { OnErr result (MayFail (faults self.old) (faults self.new)) }
        ensures never_falls { faults self.old ≤ faults self.new };

    // What a call gave are the first bytes that were left.
    ghost from_left: { (old : Self) (bytes : List ℕ) (new : Self) → gave old bytes new → Consumes (left old) (left new) bytes };
}
