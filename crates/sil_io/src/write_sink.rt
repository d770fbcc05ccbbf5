//! A sink over a writer to the outside: a call is one write and one flush. It counts what goes wrong, and doesn't tell what it holds,
//! since a flush that failed doesn't say how much of the piece went out.

ghost use Rattle.std.specs.Prelude.{◌≡◌, ◌<◌, ◌≤◌, None, IfOk, OnOk, OnErr, length, take};
ghost use Rattle.std.specs.Io.KnownBytes.{Appends};
ghost use Rattle.sil_io.specs.inner.Calls.{WritesAndFlushes, Breaks};
ghost use Rattle.sil_io.specs.Count.{Counted, next_count};

use crate::failed::Failed;
use crate::sink::Sink;
use crate::writer::Writer;
use std::marker::Model;

/// The bytes that go to a writer, each piece flushed. A fault is an error of the writer, in a write or a flush,
/// whatever its kind, or a write that takes nothing. None is tried again.
/// Contracts see it as `Counted`.
#[derive(Drop)]
pub struct WriteSink<W> {
    writer: W,
    faults: u64,
}

impl<W> Model for WriteSink<W> {
    ghost Value = { Counted W };

    ghost view = { λ s. record { inner = s.writer; faults = s.faults } };
}

impl<W: Writer> WriteSink<W> {
    /// A sink that hands on to `writer`, with no fault yet.
    pub fn new(writer: W) -> WriteSink<W>
        ensures { result ≡ record { inner = writer; faults = 0 } }
    {
        WriteSink { writer, faults: 0 }
    }
}

impl<W: Writer> Sink for WriteSink<W> {
    ghost held = { λ _. None };

    ghost faults = { λ s. s.faults };

    ghost took = { λ old given n new. WritesAndFlushes W.writes W.flushed old.inner given n new.inner };

    ghost refused = { λ old given new. Breaks W.writes W.failed W.flush_failed old.inner given new.inner };

    fn put(&mut self, bytes: &[u8]) -> Result<usize, Failed>
        requires { 0 < length bytes.now }
        ensures some { IfOk result (λ n. 1 ≤ n) }
        ensures within { IfOk result (λ n. n ≤ length bytes.now) }
        ensures written { IfOk result (λ n. Appends (W.contents self.old.inner) (W.contents self.new.inner) (take n bytes.now)) }
        // One write is given the whole piece, and behind it comes one flush. The answer is the count of that write, if neither failed.
        ensures went_out { IfOk result (λ n. WritesAndFlushes W.writes W.flushed self.old.inner bytes.now n self.new.inner) }
        ensures broke { OnErr result (Breaks W.writes W.failed W.flush_failed self.old.inner bytes.now self.new.inner) }
        ensures no_fault { OnOk result (self.new.faults ≡ self.old.faults) }
        ensures fault { OnErr result (self.new.faults ≡ next_count self.old.faults) }
        ensures never_falls { self.old.faults ≤ self.new.faults }
    {
        match write_and_flush(&mut self.writer, bytes) {
            Ok(count) => Ok(count),
            Err(_) => {
                self.faults = self.faults.saturating_add(1);
                Err(Failed)
            }
        }
    }
}

/// One write of the whole piece, and behind it one flush: how many bytes the writer took, if it took any and neither failed.
fn write_and_flush<W: Writer>(writer: &mut W, bytes: &[u8]) -> Result<usize, Failed>
    ensures within { IfOk result (λ n. n ≤ length bytes.now) }
    ensures written { IfOk result (λ n. Appends (W.contents writer.old) (W.contents writer.new) (take n bytes.now)) }
    ensures went_out { IfOk result (λ n. WritesAndFlushes W.writes W.flushed writer.old bytes.now n writer.new) }
    ensures broke { OnErr result (Breaks W.writes W.failed W.flush_failed writer.old bytes.now writer.new) }
{
    match writer.write_once(bytes) {
        Ok(count) if count > 0 => match writer.flush_once() {
            Ok(()) => Ok(count),
            Err(_) => Err(Failed),
        },
        _ => Err(Failed),
    }
}
