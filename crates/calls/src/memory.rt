//! Sources and sinks in memory. They transfer bytes in pieces, and can be made to fail.
ghost use Rattle.std.specs.Prelude.{None, ◌-◌, ◌^◌};

use cadf_json::{Failed, Sink, Source};
use std::alloc::Global;

/// Bytes that are read in pieces, or borrowed. One read can be made to fail.
#[derive(Drop)]
pub struct MemorySource<'b> {
    bytes: &'b [u8],
    piece: usize,
    failing_read: usize,
    reads: usize,
}

impl<'b> MemorySource<'b> {
    /// Makes a source whose reads return at most `piece` bytes each. Read number `failing_read`, from 1, fails; with 0
    /// none does. If `piece` is 0, the bytes can be borrowed, and a read returns as many as there is room for.
    pub fn new(bytes: &'b [u8], piece: usize, failing_read: usize) -> MemorySource<'b> {
        MemorySource {
            bytes,
            piece,
            failing_read,
            reads: 0,
        }
    }
}

// Neither the bytes nor the failures are known to a clause: a count of failures at its greatest value stays.
impl<'b> Source for MemorySource<'b> {
    ghost left = { λ s. None };

    ghost reads = { λ s. s.reads };

    ghost failures = { λ s. 2 ^ 64 - 1 };

    fn read(&mut self, buffer: &mut [u8]) -> Result<usize, Failed> {
        self.reads = self.reads.saturating_add(1);
        if self.reads == self.failing_read {
            return Err(Failed);
        }
        let room = match self.piece {
            0 => buffer.len(),
            piece => piece.min(buffer.len()),
        };
        let count = room.min(self.bytes.len());
        let (given, left) = self.bytes.split_at(count);
        buffer[..count].copy_from_slice(given);
        self.bytes = left;
        Ok(count)
    }

    fn borrow_next(&mut self, limit: usize) -> Option<&[u8]> {
        if self.piece > 0 {
            return None;
        }
        let (borrowed, left) = self.bytes.split_at(limit.min(self.bytes.len()));
        self.bytes = left;
        Some(borrowed)
    }
}

/// Bytes that were written in pieces. One write can be made to fail.
#[derive(Drop)]
pub struct MemorySink {
    bytes: Vec<u8>,
    piece: usize,
    refused_write: usize,
    empty_write: usize,
    writes: usize,
}

impl MemorySink {
    /// Makes an empty sink that accepts at most `piece` bytes at each write, and one if that is 0. Write `number`, from 1,
    /// returns an error if `failure` is `refuses`, and writes nothing if it is `takes-nothing`.
    pub fn new(alloc: Global, piece: usize, failure: &str, number: usize) -> MemorySink {
        MemorySink {
            bytes: Vec::new(alloc),
            piece: piece.max(1),
            refused_write: if failure == "refuses" { number } else { 0 },
            empty_write: if failure == "takes-nothing" {
                number
            } else {
                0
            },
            writes: 0,
        }
    }

    /// Returns the bytes that were written.
    pub fn bytes(&self) -> &[u8] {
        self.bytes.as_slice()
    }
}

impl Sink for MemorySink {
    ghost written = { λ s. None };

    ghost writes = { λ s. s.writes };

    ghost failures = { λ s. 2 ^ 64 - 1 };

    fn write(&mut self, bytes: &[u8]) -> Result<usize, Failed> {
        self.writes = self.writes.saturating_add(1);
        if self.writes == self.refused_write {
            return Err(Failed);
        }
        if self.writes == self.empty_write {
            return Ok(0);
        }
        let count = self.piece.min(bytes.len());
        match self.bytes.extend_from_slice(&bytes[..count]) {
            Ok(()) => Ok(count),
            Err(_) => Err(Failed),
        }
    }
}
