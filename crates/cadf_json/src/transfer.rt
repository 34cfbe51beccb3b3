//! Functions that read a source to its end, and write a text in full.
ghost use Rattle.std.specs.Prelude.{◌≡◌, ◌≤◌, ◌+◌, ◌-◌, ◌<◌, ◌^◌, length, IfOk, OnOk, OnErr, is_err};
ghost use Rattle.std.specs.Io.KnownBytes.{Consumes, Appends, IsAtEnd};
ghost use Rattle.cadf_json.specs.Streams.{counted, ConsumesAtMost, ConsumesExactly, ConsumesAfter, ConsumesWithin, AppendsPrefix, is_read_fault};

use crate::Memory;
use crate::stream::{Failed, Sink, Source};
use std::alloc::Global;
use thiserror::Error;

/// The number of bytes that one read asks for.
const PIECE: usize = 4096;

/// Why a source was not read to its end.
#[derive(Clone, Copy, Debug, Drop, PartialEq, Eq, Error)]
pub enum ReadLimitFault {
    /// There are more bytes than the limit.
    #[error("too large")]
    TooLarge,
    /// A read failed.
    #[error("read fault")]
    ReadFault,
    /// An allocation failed.
    #[error("out of memory")]
    Memory,
}

/// Why a text was not written in full.
#[derive(Clone, Copy, Debug, Drop, PartialEq, Eq, Error)]
pub enum OutFault {
    /// A write failed.
    #[error("write fault")]
    WriteFault,
    /// An allocation failed.
    #[error("out of memory")]
    Memory,
}

impl From<Failed> for OutFault {
    ghost use Rattle.std.specs.Prelude.{◌≡◌};
    ghost use Rattle.cadf_json.specs.declared.transfer.OutFault.TheVariants.{WriteFault};

    ghost from_gives = { λ _ e. e ≡ WriteFault };

    fn from(_failed: Failed) -> OutFault {
        OutFault::WriteFault
    }
}

impl From<Memory> for OutFault {
    ghost use Rattle.std.specs.Prelude.{◌≡◌};
    ghost use Rattle.cadf_json.specs.declared.transfer.OutFault.TheVariants.{Memory as OutOfMemory};

    ghost from_gives = { λ _ e. e ≡ OutOfMemory };

    fn from(_refused: Memory) -> OutFault {
        OutFault::Memory
    }
}

/// Reads the source to its end. `TooLarge` if it has more than `limit` bytes. `ReadFault` if a read failed before.
/// `Memory` if an allocation fails.
pub fn read_to_limit<S: Source>(
    alloc: Global,
    source: &mut S,
    limit: usize,
) -> Result<Vec<u8>, ReadLimitFault>
    requires { limit < 2 ^ 63 }
    ensures bytes { IfOk result (λ v. Consumes (S.left source.old) (S.left source.new) v.items) }
    ensures end { OnOk result (IsAtEnd (S.left source.new)) }
    ensures limit { IfOk result (λ v. length v.items ≤ limit) }
    ensures too_large { result ≡ Err ReadLimitFault.TooLarge
        → ConsumesExactly (S.left source.old) (S.left source.new) (limit + 1) }
    ensures read_fault { result ≡ Err ReadLimitFault.ReadFault
        → ConsumesAtMost (S.left source.old) (S.left source.new) limit }
    ensures memory { result ≡ Err ReadLimitFault.Memory
        → ConsumesAtMost (S.left source.old) (S.left source.new) (limit + 1) }
    ensures failures { S.failures source.new
        ≡ counted (is_read_fault result) (S.failures source.old) }
    ensures reads { S.reads source.new ≤ S.reads source.old + limit + 2 }
{
    read_rest(source, Vec::new(alloc), limit)
}

/// Returns `start`, the bytes that were already read, followed by the rest of the source. `limit` bounds both together.
/// `Err`: a fault as of `read_to_limit`.
pub fn read_rest<S: Source>(
    source: &mut S,
    start: Vec<u8>,
    limit: usize,
) -> Result<Vec<u8>, ReadLimitFault>
    requires { limit < 2 ^ 63 }
    ensures bytes { IfOk result (λ v. ConsumesAfter (S.left source.old) (S.left source.new)
        start.items v.items) }
    ensures end { OnOk result (IsAtEnd (S.left source.new)) }
    ensures limit { IfOk result (λ v. length v.items ≤ limit) }
    ensures too_large { result ≡ Err ReadLimitFault.TooLarge → ConsumesExactly
        (S.left source.old) (S.left source.new) (limit + 1 - length start.items) }
    ensures read_fault { result ≡ Err ReadLimitFault.ReadFault
        → ConsumesWithin (S.left source.old) (S.left source.new) (length start.items) limit }
    ensures memory { result ≡ Err ReadLimitFault.Memory
        → ConsumesWithin (S.left source.old) (S.left source.new) (length start.items) (limit + 1) }
    ensures failures { S.failures source.new
        ≡ counted (is_read_fault result) (S.failures source.old) }
    ensures reads { S.reads source.new ≤ S.reads source.old + (limit + 2 - length start.items) }
{
    let mut bytes = start;
    let mut piece = [0u8; PIECE];
    'pieces: while bytes.len() <= limit {
        let room = PIECE.min(limit + 1 - bytes.len());
        let buffer = &mut piece[..room];
        let count = match source.read(buffer) {
            Ok(0) => return Ok(bytes),
            Ok(count) => count,
            Err(_) => return Err(ReadLimitFault::ReadFault),
        };
        if bytes.extend_from_slice(&buffer[..count]).is_err() {
            return Err(ReadLimitFault::Memory);
        }
    }
    Err(ReadLimitFault::TooLarge)
}

/// Writes all the bytes. `Err`: a write failed or wrote nothing, after a prefix was written.
pub fn write_all<S: Sink>(sink: &mut S, bytes: &[u8]) -> Result<(), Failed>
    ensures bytes { OnOk result (Appends (S.written sink.old) (S.written sink.new) bytes.now) }
    ensures front { OnErr result
        (AppendsPrefix (S.written sink.old) (S.written sink.new) bytes.now) }
    ensures failures { S.failures sink.new ≡ counted (is_err result) (S.failures sink.old) }
    ensures writes { S.writes sink.new ≤ S.writes sink.old + length bytes.now }
{
    let mut done = 0;
    while done < bytes.len() {
        let count = sink.write(&bytes[done..])?;
        if count == 0 {
            return Err(Failed);
        }
        done += count;
    }
    Ok(())
}
