//! A source in memory that gives short pieces and fails at chosen calls.
//! It stands in for an input that nobody can foresee.

ghost use Rattle.std.specs.Prelude.{◌≡◌, ◌↔◌, ◌<◌, ◌≤◌, [], ◌++◌, Some, IfOk, OnErr, IsErr, IsTrue, MatchResult, length, vec_len, take, drop};
ghost use Rattle.sil_io.specs.inner.MemorySource.{SourceState, fails_next, next_given, after_giving, after_fault};

use crate::copying::copy_front;
use crate::failed::Failed;
use crate::source::Source;
use std::marker::Model;

/// Bytes in memory, given in pieces. Contracts see a `SourceState`.
#[derive(Drop)]
pub struct MemorySource {
    bytes: Vec<u8>,
    next: usize,
    piece: usize,
    fails: Vec<u64>,
    calls: u64,
    faults: u64,
}

impl Model for MemorySource {
    ghost Value = { SourceState };

    ghost view = { λ s. record { left = drop s.next s.bytes.items; piece = s.piece; fails = s.fails.items; calls = s.calls; faults = s.faults } };

    ghost invariant = { λ s. (s.next ≤ vec_len s.bytes) × (1 ≤ s.piece) };
}

impl MemorySource {
    /// A source with all of `bytes` left, which gives at most `piece` bytes a call and fails at the calls with the numbers `fails`, from 1.
    pub fn new(bytes: Vec<u8>, piece: usize, fails: Vec<u64>) -> MemorySource
        requires { 1 ≤ piece }
        ensures { result ≡ record { left = bytes.items; piece = piece; fails = fails.items; calls = 0; faults = 0 } }
    {
        MemorySource {
            bytes,
            next: 0,
            piece,
            fails,
            calls: 0,
            faults: 0,
        }
    }
}

impl Source for MemorySource {
    ghost left = { λ s. Some s.left };

    ghost faults = { λ s. s.faults };

    ghost gave = { λ old bytes new. old.left ≡ bytes ++ new.left };

    ghost missed = { λ old new. new.left ≡ old.left };

    ghost from_left = { λ _ _ _ given. given };

    fn take(&mut self, buf: &mut [u8]) -> Result<usize, Failed>
        requires { 0 < length buf.old }
        ensures failed { IsErr result ↔ IsTrue (fails_next self.old) }
        ensures count { IfOk result (λ n. n ≡ next_given self.old (length buf.old)) }
        ensures given { IfOk result (λ n. buf.new ≡ take n self.old.left ++ drop n buf.old) }
        ensures end { IfOk result (λ n. n ≡ 0 → self.old.left ≡ []) }
        ensures after { MatchResult result (λ n. self.new ≡ after_giving self.old n) (λ _. self.new ≡ after_fault self.old) }
        ensures never_falls { self.old.faults ≤ self.new.faults }
        ensures untouched { OnErr result (buf.new ≡ buf.old) }
    {
        self.calls = self.calls.saturating_add(1);
        if self.fails.contains(&self.calls) {
            self.faults = self.faults.saturating_add(1);
            return Err(Failed);
        }
        let rest = &self.bytes[self.next..];
        let given = copy_front(&rest[..self.piece.min(rest.len())], buf);
        self.next += given;
        Ok(given)
    }
}
