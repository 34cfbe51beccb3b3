//! Replica files that are read.

use crate::replicas::shown;
use cadf_file::{FileFault, read_replica};
use cadf_json::Memory;
use cadf_replica::Replica;
use calls::{Call, MemorySource, refused};
use std::alloc::Global;

/// How a file is read.
#[derive(Clone, Copy, Drop)]
pub(crate) struct Reading {
    /// The limit on the bytes of the file.
    pub(crate) limit: u64,
    /// The greatest number of bytes that one read returns.
    pub(crate) piece: usize,
    /// The number of the read that fails; with 0 none fails.
    pub(crate) failing: usize,
}

impl Reading {
    /// Parses the first three words: the limit, the bytes of a read, the read that fails.
    pub(crate) fn of(call: &Call) -> Reading {
        Reading {
            limit: call.number(1) as u64,
            piece: call.number(2),
            failing: call.number(3),
        }
    }

    /// Makes the reader of these bytes.
    pub(crate) fn source(self, bytes: &[u8]) -> MemorySource<'_> {
        MemorySource::new(bytes, self.piece.max(1), self.failing)
    }
}

/// Reads the bytes as a replica file.
pub(crate) fn read_in(alloc: Global, reading: Reading, bytes: &[u8]) -> Result<Replica, FileFault> {
    read_replica(alloc, &mut reading.source(bytes), reading.limit)
}

/// Answers a reading: the replica, or the fault.
pub(crate) fn read_answer(
    alloc: Global,
    read: Result<Replica, FileFault>,
) -> Result<String, Memory> {
    match read {
        Ok(replica) => shown(alloc, &replica),
        Err(fault) => refused(alloc, &fault),
    }
}

/// Answers `read`: a reading and a file.
pub(crate) fn read(alloc: Global, call: &Call) -> Result<String, Memory> {
    read_answer(alloc, read_in(alloc, Reading::of(call), call.bytes(4)))
}
