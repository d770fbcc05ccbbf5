//! Reading a source to its end, within a limit.

ghost use Rattle.std.specs.Prelude.{◌≡◌, ◌↔◌, ◌+◌, ◌<◌, ◌≤◌, IfOk, IfErr, IfSome, IsErrOf, OnOk, length, vec_len};
ghost use Rattle.std.specs.Io.KnownBytes.{IsAtEnd};
ghost use Rattle.sil_io.specs.Reading.{SomeTaken, CountAfter, GivesToEnd, GivesUp};
ghost use Rattle.sil_io.specs.declared.reading.ReadEnd.TheVariants.{Fault, Memory};

use crate::failed::Failed;
use crate::source::Source;
use std::alloc::{AllocError, Global};
use thiserror::Error;

/// How many bytes are asked for at once, at most.
const CHUNK: usize = 64 * 1024;

/// Why a source was not read to its end.
#[derive(Clone, Copy, Debug, PartialEq, Eq, Error)]
pub enum ReadEnd {
    #[error("read fault")]
    Fault,
    #[error("too many bytes")]
    TooLong,
    #[error("out of memory")]
    Memory,
}

impl From<Failed> for ReadEnd {
    ghost from_gives = { λ _ end. end ≡ Fault };

    fn from(_failed: Failed) -> ReadEnd {
        ReadEnd::Fault
    }
}

impl From<AllocError> for ReadEnd {
    ghost from_gives = { λ _ end. end ≡ Memory };

    fn from(_error: AllocError) -> ReadEnd {
        ReadEnd::Memory
    }
}

/// All bytes that are left in `src`, where they are at most `limit`.
///
/// `Fault` comes only with a fault of the source, `TooLong` exactly where `limit + 1` bytes were taken, and `Memory`
/// where there was no memory for the bytes. After each of them the bytes that were taken are gone.
pub fn read_all<S: Source>(alloc: Global, src: &mut S, limit: usize) -> Result<Vec<u8>, ReadEnd>
    requires { limit < usize.MAX }
    ensures all { IfOk result (λ bytes. IfSome (S.left src.old) (λ left. bytes.items ≡ left)) }
    ensures within { IfOk result (λ bytes. vec_len bytes ≤ limit) }
    ensures end { OnOk result (IsAtEnd (S.left src.new)) }

    ensures gives_up { SomeTaken (S.left src.old) (S.left src.new) (λ taken.
        IsErrOf result ReadEnd.TooLong ↔ (length taken ≡ limit + 1)) }

    // What each take gave, and that none came behind the end, the first byte past the limit or a fault.
    ensures to_end { IfOk result (λ bytes. GivesToEnd S.gave src.old bytes.items src.new) }
    ensures cut_off { IfErr result (λ end. GivesUp S.gave S.missed limit src.old src.new end) }

    ensures no_fault { OnOk result (S.faults src.new ≡ S.faults src.old) }
    ensures refused { IfErr result (λ end. CountAfter end (S.faults src.old) (S.faults src.new)) }
    ensures never_falls { S.faults src.old ≤ S.faults src.new }
{
    let mut chunk = vec![in alloc; 0u8; CHUNK.min(limit + 1)]?;
    let mut bytes = Vec::new(alloc);
    'pieces: loop {
        let wanted = chunk.len().min(limit + 1 - bytes.len());
        let piece = &mut chunk[..wanted];
        let count = src.take(piece)?;
        if count == 0 {
            return Ok(bytes);
        }
        if count > limit - bytes.len() {
            return Err(ReadEnd::TooLong);
        }
        bytes.extend_from_slice(&piece[..count])?;
    }
}
