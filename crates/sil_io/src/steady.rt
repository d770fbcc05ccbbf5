//! A source and a sink that never fail.

ghost use Rattle.std.specs.Prelude.{◌≡◌, ℕ, ◌<◌, ◌≤◌, ◌++◌, List, Some, None, Ok, IfOk, length, vec_len, min, take, drop};

use crate::copying::copy_front;
use crate::failed::Failed;
use crate::sink::Sink;
use crate::source::Source;
use std::marker::Model;

/// Bytes in memory, given as fast as the caller has room. Contracts see the bytes left.
#[derive(Drop)]
pub struct SteadySource {
    bytes: Vec<u8>,
    next: usize,
}

impl Model for SteadySource {
    ghost Value = { List ℕ };

    ghost view = { λ s. drop s.next s.bytes.items };

    ghost invariant = { λ s. s.next ≤ vec_len s.bytes };
}

impl SteadySource {
    /// A source with all of `bytes` left.
    pub fn new(bytes: Vec<u8>) -> SteadySource
        ensures { result ≡ bytes.items }
    {
        SteadySource { bytes, next: 0 }
    }
}

impl Source for SteadySource {
    ghost left = { λ s. Some s };

    ghost faults = { λ _. 0 };

    ghost gave = { λ old bytes new. old ≡ bytes ++ new };

    ghost missed = { λ _ _. ⊥ };

    ghost from_left = { λ _ _ _ given. given };

    fn take(&mut self, buf: &mut [u8]) -> Result<usize, Failed>
        requires { 0 < length buf.old }
        ensures count { result ≡ Ok (min (length buf.old) (length self.old)) }
        ensures given { IfOk result (λ n. buf.new ≡ take n self.old ++ drop n buf.old) }
        ensures rest { IfOk result (λ n. self.new ≡ drop n self.old) }
    {
        let given = copy_front(&self.bytes[self.next..], buf);
        self.next += given;
        Ok(given)
    }
}

/// Takes all bytes and keeps none.
#[derive(Clone, Copy, Debug)]
pub struct NullSink;

impl NullSink {
    /// A sink that has not failed and never will.
    pub fn new() -> NullSink
        ensures { ⟦<NullSink as Sink>⟧.faults result ≡ 0 }
    {
        NullSink
    }
}

impl Sink for NullSink {
    ghost held = { λ _. None };

    ghost faults = { λ _. 0 };

    ghost took = { λ _ given n _. n ≡ length given };

    ghost refused = { λ _ _ _. ⊥ };

    fn put(&mut self, bytes: &[u8]) -> Result<usize, Failed>
        requires { 0 < length bytes.now }
        ensures { result ≡ Ok (length bytes.now) }
    {
        Ok(bytes.len())
    }
}
