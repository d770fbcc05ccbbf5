//! The program between its two ends: the words of a command line, or why they aren't there, in, and a status out.
//! It knows of no mode and no text: what is answered is the command's.
ghost use Rattle.std.specs.Prelude.{◌≡◌, IfOk, IfErr, map, drop, string_bytes, [], ◌∷◌};
ghost use Rattle.std.specs.IoError.{error_kind};
ghost use Rattle.std.specs.Vec.Iter.{into_iter_items};
ghost use Rattle.sil_command.specs.Ends.{call_between, Ends};

use sil_command::command;
use sil_io::{Sink, Source};
use std::alloc::{AllocError, Global};
use std::env::Args;
use std::io;
use std::io::ErrorKind;

/// The status where the words can't be read, since no memory is left for them.
const NO_MEMORY: u8 = 9;

/// The size in bytes of a block that `keep_freed_memory` asks for: nearly the largest that it works with.
const LARGE_BLOCK: usize = 32 * 1024 * 1024 - 64 * 1024;

/// Runs the command with the words behind the program's name, over these two ends, and answers its status.
///
/// Where a word isn't text, no mode is asked for: the command has one empty word in place of all. Where the words couldn't
/// be read for another reason, the status is 9, and nothing is read or written.
pub fn run<S: Source, K: Sink>(
    alloc: Global,
    args: io::Result<Args>,
    source: &mut S,
    out: &mut K,
) -> u8
    ensures words { IfOk args (λ all. Ends (call_between (map string_bytes (drop 1 (into_iter_items all)))
        S.left S.gave S.faults source.old source.new K.held K.took K.refused K.faults out.old out.new) result) }
    ensures no_text { IfErr args (λ error. error_kind error ≡ ErrorKind.InvalidData → Ends (call_between ([] ∷ [])
        S.left S.gave S.faults source.old source.new K.held K.took K.refused K.faults out.old out.new) result) }
    ensures no_words { IfErr args (λ error. ¬ error_kind error ≡ ErrorKind.InvalidData →
        (result ≡ 9) × (source.new ≡ source.old) × (out.new ≡ out.old)) }
{
    keep_freed_memory(alloc);
    match args {
        Ok(args) => run_words(alloc, args, source, out),
        Err(error) if error.kind() == ErrorKind::InvalidData => command(alloc, &[""], source, out),
        Err(_) => NO_MEMORY,
    }
}

/// Takes a large block and gives it back: no byte of it is touched. The C library gives the memory of large blocks back to
/// the system at once, until one of them was given back. From then on it keeps that of blocks up to this size for what is
/// asked for next, and the system has fewer pages to make.
fn keep_freed_memory(alloc: Global) {
    let _block: Result<Vec<u8>, AllocError> = Vec::with_capacity(alloc, LARGE_BLOCK);
}

/// Runs the command with all of these words but the first.
fn run_words<S: Source, K: Sink>(alloc: Global, args: Args, source: &mut S, out: &mut K) -> u8
    ensures { Ends (call_between (map string_bytes (drop 1 (into_iter_items args)))
        S.left S.gave S.faults source.old source.new K.held K.took K.refused K.faults out.old out.new) result }
{
    let words = match all_but_first(alloc, args) {
        Ok(words) => words,
        Err(_) => return NO_MEMORY,
    };
    match texts_of(alloc, words.as_slice()) {
        Ok(texts) => command(alloc, texts.as_slice(), source, out),
        Err(_) => NO_MEMORY,
    }
}

/// These words without the first.
fn all_but_first(alloc: Global, mut args: Args) -> Result<Vec<String>, AllocError>
    ensures { IfOk result (λ words. words.items ≡ drop 1 (into_iter_items args)) }
{
    let _name = args.next();
    let mut words = Vec::new(alloc);
    while let Some(word) = args.next() {
        words.push(word)?;
    }
    Ok(words)
}

/// The texts of these words.
fn texts_of<'a>(alloc: Global, words: &'a [String]) -> Result<Vec<&'a str>, AllocError>
    ensures { IfOk result (λ texts. map (λ text. text.now) texts.items ≡ map string_bytes words.now) }
{
    let mut texts = Vec::new(alloc);
    for word in words {
        texts.push(word.as_str())?;
    }
    Ok(texts)
}
