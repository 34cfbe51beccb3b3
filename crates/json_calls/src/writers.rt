//! Sinks that accept bytes in pieces, and fail when asked to.

use cadf_json::{Failed, FromStd, OutFault, write_all};
use calls::{Call, MemorySink};
use std::alloc::{AllocError as Memory, Global};
use std::io;

/// Answers whether the bytes were written, and which.
fn told(alloc: Global, done: Result<(), Failed>, written: &[u8]) -> Result<String, Memory> {
    let mut line = match done {
        Ok(()) => calls::answer(alloc, "ok", &[])?,
        Err(failed) => calls::refused(alloc, &OutFault::from(failed))?,
    };
    calls::push_bytes(&mut line, written)?;
    Ok(line)
}

/// Writes the first word's bytes in pieces; a write may fail.
pub(crate) fn whole(alloc: Global, call: &Call) -> Result<String, Memory> {
    let mut sink = MemorySink::new(alloc, call.number(2), call.text(3), call.number(4));
    let done = write_all(&mut sink, call.bytes(1));
    told(alloc, done, sink.bytes())
}

/// A writer of std that accepts one byte per call, up to a number of bytes, and no more.
#[derive(Drop)]
struct Full {
    bytes: Vec<u8>,
    room: usize,
}

impl io::Write for Full {
    fn write(&mut self, buf: &[u8]) -> io::Result<usize> {
        let Some(first) = buf.first() else {
            return Ok(0);
        };
        if self.room == 0 || self.bytes.push(*first).is_err() {
            return Ok(0);
        }
        self.room -= 1;
        Ok(1)
    }

    fn flush(&mut self) -> io::Result<()> {
        Ok(())
    }
}

/// Writes the first word's bytes to a writer of std that accepts that number of bytes.
pub(crate) fn by_std(alloc: Global, call: &Call) -> Result<String, Memory> {
    let mut sink = FromStd::new(Full {
        bytes: Vec::new(alloc),
        room: call.number(2),
    });
    let done = write_all(&mut sink, call.bytes(1));
    told(alloc, done, &sink.into_inner().bytes)
}
