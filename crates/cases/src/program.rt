//! The words of the program and its text, and what is answered.

use crate::answer::Answer;
use crate::calls::answer;
use sil_ast::Exhausted;
use sil_io::{Sink, Source, read_all, write_all};
use sil_rules::{Status, limits};
use std::alloc::{AllocError, Global};
use std::env::Args;
use std::io;

/// Answers what the words ask of the text in the source, and gives the status.
pub fn run<S: Source, K: Sink>(
    alloc: Global,
    args: io::Result<Args>,
    source: &mut S,
    out: &mut K,
) -> u8 {
    let Ok(args) = args else {
        return Status::Usage.code();
    };
    let Ok(text) = read_all(alloc, source, limits::TEXT_BYTES) else {
        return Status::ReadFault.code();
    };
    let mut written = Answer::new(alloc);
    match answer_to(alloc, args, text.as_slice(), &mut written) {
        Ok(status) => put(&written, status, out),
        Err(Exhausted) => Status::OutOfMemory.code(),
    }
}

/// Writes the answer, and gives the status.
fn put<K: Sink>(written: &Answer, status: u8, out: &mut K) -> u8 {
    match written.whole() {
        Ok(whole) => match write_all(out, whole) {
            Ok(()) => status,
            Err(_fault) => Status::WriteFault.code(),
        },
        Err(Exhausted) => Status::OutOfMemory.code(),
    }
}

/// What the words ask of a text.
fn answer_to(
    alloc: Global,
    args: Args,
    text: &[u8],
    written: &mut Answer,
) -> Result<u8, Exhausted> {
    let mut words = Vec::new(alloc);
    for word in args {
        words.push(word)?;
    }
    let texts = texts_of(alloc, words.as_slice())?;
    answer(alloc, texts.as_slice(), text, written)
}

/// The texts of these words.
fn texts_of<'a>(alloc: Global, words: &'a [String]) -> Result<Vec<&'a str>, AllocError> {
    let mut texts = Vec::new(alloc);
    for word in words {
        texts.push(word.as_str())?;
    }
    Ok(texts)
}
