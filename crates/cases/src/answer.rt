//! What is answered: a text that grows.

use sil_ast::Exhausted;
use std::alloc::Global;

/// A text that grows. Where memory is wanting, it says so at the end, in place of each call that adds to it.
#[derive(Drop)]
pub(crate) struct Answer {
    alloc: Global,
    written: Vec<u8>,
    is_exhausted: bool,
}

impl Answer {
    pub(crate) fn new(alloc: Global) -> Answer {
        Answer {
            alloc,
            written: Vec::new(alloc),
            is_exhausted: false,
        }
    }

    /// Adds these bytes.
    pub(crate) fn add_bytes(&mut self, bytes: &[u8]) {
        if self.written.extend_from_slice(bytes).is_err() {
            self.is_exhausted = true;
        }
    }

    /// Adds a text.
    pub(crate) fn add(&mut self, text: &str) {
        self.add_bytes(text.as_bytes());
    }

    /// Adds a number in decimal digits, behind some other text. All numbers are written here, since a `format!` is dear to prove.
    pub(crate) fn add_number(&mut self, before: &str, number: u64) {
        match format!(in self.alloc; "{before}{number}") {
            Ok(part) => self.add(part.as_str()),
            Err(_) => self.is_exhausted = true,
        }
    }

    /// Adds a line, and gives the status that goes with it.
    pub(crate) fn line(&mut self, text: &str, status: u8) -> u8 {
        self.add(text);
        self.add("\n");
        status
    }

    /// The whole text, unless memory was wanting for a part of it.
    pub(crate) fn whole(&self) -> Result<&[u8], Exhausted> {
        if self.is_exhausted {
            Err(Exhausted)
        } else {
            Ok(self.written.as_slice())
        }
    }
}
