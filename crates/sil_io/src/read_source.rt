//! A source over a reader from outside: a call is one read. It counts what goes wrong, and doesn't tell what is left,
//! since a read that failed doesn't say what it took.

ghost use Rattle.std.specs.Prelude.{◌≡◌, ◌<◌, ◌≤◌, None, IfOk, OnOk, OnErr, MatchResult, length, take};
ghost use Rattle.std.specs.Io.KnownBytes.{Consumes, IsAtEnd};
ghost use Rattle.sil_io.specs.inner.Calls.{ReadGave, ReadFailed};
ghost use Rattle.sil_io.specs.Count.{Counted, next_count};

use crate::failed::Failed;
use crate::reader::Reader;
use crate::source::Source;
use std::marker::Model;

/// The bytes of a reader. Each error of the reader is a fault, whatever its kind, and none is tried again.
/// Contracts see it as `Counted`.
#[derive(Drop)]
pub struct ReadSource<R> {
    reader: R,
    faults: u64,
}

impl<R> Model for ReadSource<R> {
    ghost Value = { Counted R };

    ghost view = { λ s. record { inner = s.reader; faults = s.faults } };
}

impl<R: Reader> ReadSource<R> {
    /// A source of what `reader` gives, with no fault yet.
    pub fn new(reader: R) -> ReadSource<R>
        ensures { result ≡ record { inner = reader; faults = 0 } }
    {
        ReadSource { reader, faults: 0 }
    }
}

impl<R: Reader> Source for ReadSource<R> {
    ghost left = { λ _. None };

    ghost faults = { λ s. s.faults };

    ghost gave = { λ old bytes new. ReadGave R.reads old.inner bytes new.inner };

    ghost missed = { λ old new. ReadFailed R.failed old.inner new.inner };

    ghost from_left = { λ _ _ _ _. tt };

    fn take(&mut self, buf: &mut [u8]) -> Result<usize, Failed>
        requires { 0 < length buf.old }
        ensures within { IfOk result (λ n. n ≤ length buf.new) }
        ensures read { IfOk result (λ n. Consumes (R.left self.old.inner) (R.left self.new.inner) (take n buf.new)) }
        ensures end { IfOk result (λ n. n ≡ 0 → IsAtEnd (R.left self.new.inner)) }
        // One read has the whole buffer, and the answer is its answer.
        ensures one_read { MatchResult result (λ n. R.reads self.old.inner buf.old buf.new n self.new.inner)
            (λ _. R.failed self.old.inner buf.old buf.new self.new.inner) }
        ensures no_fault { OnOk result (self.new.faults ≡ self.old.faults) }
        ensures fault { OnErr result (self.new.faults ≡ next_count self.old.faults) }
        ensures never_falls { self.old.faults ≤ self.new.faults }
    {
        match self.reader.read_once(buf) {
            Ok(count) => Ok(count),
            Err(_) => {
                self.faults = self.faults.saturating_add(1);
                Err(Failed)
            }
        }
    }
}
