//! What takes bytes.

ghost use Rattle.std.specs.Prelude.{◌≡◌, ℕ, ◌<◌, ◌≤◌, List, Option, length, take, IfOk, OnOk, OnErr};
ghost use Rattle.std.specs.Io.KnownBytes.{Appends, Keeps};
ghost use Rattle.sil_io.specs.Count.{MayFail};

use crate::failed::Failed;

/// A place to put bytes into. Contracts see the bytes that it holds, where the sink tells them, and how often it failed.
pub trait Sink {
    // The bytes that the sink holds, where it tells them.
    ghost held: { Self → Option (List ℕ) };

    // How many calls failed.
    ghost faults: { Self → ℕ };

    // `took old given n new`: one call was given these bytes and took the first n.
    ghost took: { Self → List ℕ → ℕ → Self → Type 0 };

    // `refused old given new`: one call was given these bytes and failed.
    ghost refused: { Self → List ℕ → Self → Type 0 };

    /// Appends the first bytes of `bytes`, at least one, and answers how many.
    /// `Failed` comes only with a fault of the sink, and appends nothing.
    fn put(&mut self, bytes: &[u8]) -> Result<usize, Failed>
        requires { 0 < length bytes.now }
        ensures some { IfOk result (λ n. 1 ≤ n) }
        ensures within { IfOk result (λ n. n ≤ length bytes.now) }
        ensures appended { IfOk result (λ n. Appends (held self.old) (held self.new) (take n bytes.now)) }
        ensures one_call { IfOk result (λ n. took self.old bytes.now n self.new) }
        ensures no_fault { OnOk result (faults self.new ≡ faults self.old) }

        ensures nothing_appended { OnErr result (Keeps (held self.old) (held self.new)) }
        ensures one_failure { OnErr result (refused self.old bytes.now self.new) }
        ensures fault { OnErr result (MayFail (faults self.old) (faults self.new)) }
        ensures never_falls { faults self.old ≤ faults self.new };
}
