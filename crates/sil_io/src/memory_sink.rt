//! A sink in memory that takes short pieces, fails at chosen calls and has room for so many bytes.
//! It stands in for an output that nobody can foresee.

ghost use Rattle.std.specs.Prelude.{◌≡◌, ◌↔◌, ◌<◌, ◌≤◌, [], ◌++◌, Some, IfOk, IsOk, IsErr, IsTrue, MatchResult, length, vec_len, take};
ghost use Rattle.std.specs.Vec.{vec_capacity};
ghost use Rattle.sil_io.specs.inner.MemorySink.{SinkState, refuses_next, next_taken, after_taking, after_refusal};

use crate::failed::Failed;
use crate::sink::Sink;
use sil_ast::Exhausted;
use std::alloc::Global;
use std::marker::Model;

/// Bytes put into memory. Contracts see a `SinkState`.
#[derive(Drop)]
pub struct MemorySink {
    bytes: Vec<u8>,
    room: usize,
    piece: usize,
    fails: Vec<u64>,
    calls: u64,
    faults: u64,
}

impl Model for MemorySink {
    ghost Value = { SinkState };

    ghost view = { λ s. record { held = s.bytes.items; room = s.room; piece = s.piece; fails = s.fails.items; calls = s.calls; faults = s.faults } };

    ghost invariant = { λ s. (vec_len s.bytes ≤ s.room) × (s.room ≤ vec_capacity s.bytes) × (1 ≤ s.piece) };
}

impl MemorySink {
    /// An empty sink with room for `room` bytes, which it reserves. It takes at most `piece` bytes a call,
    /// and fails at the calls with the numbers `fails`, from 1, and where no room is left.
    pub fn new(
        alloc: Global,
        room: usize,
        piece: usize,
        fails: Vec<u64>,
    ) -> Result<MemorySink, Exhausted>
        requires { 1 ≤ piece }
        ensures empty { IfOk result (λ sink. sink ≡ record { held = []; room = room; piece = piece; fails = fails.items; calls = 0; faults = 0 }) }
        ensures nothing_to_reserve { room ≡ 0 → IsOk result }
    {
        Ok(MemorySink {
            bytes: Vec::with_capacity(alloc, room)?,
            room,
            piece,
            fails,
            calls: 0,
            faults: 0,
        })
    }

    /// What the sink holds.
    pub fn bytes(&self) -> &[u8]
        ensures { result.now ≡ self.now.held }
    {
        self.bytes.as_slice()
    }
}

impl Sink for MemorySink {
    ghost held = { λ s. Some s.held };

    ghost faults = { λ s. s.faults };

    ghost took = { λ old given n new. new.held ≡ old.held ++ take n given };

    ghost refused = { λ old _ new. new.held ≡ old.held };

    fn put(&mut self, bytes: &[u8]) -> Result<usize, Failed>
        requires { 0 < length bytes.now }
        ensures failed { IsErr result ↔ IsTrue (refuses_next self.old) }
        ensures count { IfOk result (λ n. n ≡ next_taken self.old (length bytes.now)) }
        ensures some { IfOk result (λ n. 1 ≤ n) }
        ensures after { MatchResult result (λ n. self.new ≡ after_taking self.old (take n bytes.now)) (λ _. self.new ≡ after_refusal self.old) }
        ensures never_falls { self.old.faults ≤ self.new.faults }
    {
        self.calls = self.calls.saturating_add(1);
        let free = self.room - self.bytes.len();
        if free == 0 || self.fails.contains(&self.calls) {
            self.faults = self.faults.saturating_add(1);
            return Err(Failed);
        }
        let taken = bytes.len().min(self.piece.min(free));
        self.bytes.extend_from_slice(&bytes[..taken]).unwrap();
        Ok(taken)
    }
}
