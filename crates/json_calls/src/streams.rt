//! Sources that return their bytes in pieces, and fail when asked to.

ghost use Rattle.std.specs.Prelude.{◌<◌, ◌^◌};

use cadf_json::{FromStd, ReadLimitFault, Source, read_rest, read_to_limit};
use calls::{Call, MemorySource};
use std::alloc::{AllocError as Memory, Global};
use std::io;

/// Answers the bytes that were read, or why they weren't.
fn told(alloc: Global, bytes: Result<Vec<u8>, ReadLimitFault>) -> Result<String, Memory> {
    match bytes {
        Ok(bytes) => {
            let mut line = calls::answer(alloc, "ok", &[])?;
            calls::push_bytes(&mut line, &bytes)?;
            Ok(line)
        }
        Err(fault) => calls::refused(alloc, &fault),
    }
}

/// Answers the limit that a word spells.
fn limit(call: &Call, place: usize) -> usize
    ensures { result < 2 ^ 63 }
{
    call.number(place).min(1 << 62)
}

/// Answers the source of these bytes, in pieces of a size of at least 1, of which a read fails.
fn source<'b>(bytes: &'b [u8], call: &Call) -> MemorySource<'b> {
    MemorySource::new(bytes, call.number(2).max(1), call.number(3))
}

/// Answers the whole of the first word's bytes, read in pieces up to a limit; a read may fail.
pub(crate) fn whole(alloc: Global, call: &Call) -> Result<String, Memory> {
    let mut source = source(call.bytes(1), call);
    let bytes = read_to_limit(alloc, &mut source, limit(call, 4));
    told(alloc, bytes)
}

/// Answers the fifth word's bytes, and after them the first word's, read as in a whole reading.
pub(crate) fn rest(alloc: Global, call: &Call) -> Result<String, Memory> {
    let mut source = source(call.bytes(1), call);
    let start = call.bytes(5).to_vec(alloc)?;
    let bytes = read_rest(&mut source, start, limit(call, 4));
    told(alloc, bytes)
}

/// Answers what is borrowed of the first word's bytes, at most as many as the third word says, and what is left to read
/// then. They can be borrowed if the second word, the size of the pieces, is 0.
pub(crate) fn borrowed(alloc: Global, call: &Call) -> Result<String, Memory> {
    let mut source = MemorySource::new(call.bytes(1), call.number(2), 0);
    let mut line = match source.borrow_next(call.number(3)) {
        Some(bytes) => {
            let mut line = calls::answer(alloc, "some", &[])?;
            calls::push_bytes(&mut line, bytes)?;
            line
        }
        None => calls::answer(alloc, "none", &[])?,
    };
    let left = read_to_limit(alloc, &mut source, 1 << 30).map_err(|_| Memory)?;
    calls::push_bytes(&mut line, &left)?;
    Ok(line)
}

/// A reader of std that returns one byte per call. Call number `failing` fails, and the next one continues.
#[derive(Drop)]
struct FailsOnce<'b> {
    left: &'b [u8],
    failing: u64,
    calls: u64,
}

impl<'b> io::Read for FailsOnce<'b> {
    fn read(&mut self, buf: &mut [u8]) -> io::Result<usize> {
        self.calls = self.calls.saturating_add(1);
        if self.calls == self.failing {
            return Err(io::ErrorKind::Interrupted.into());
        }
        let Some((first, left)) = self.left.split_first() else {
            return Ok(0);
        };
        if buf.is_empty() {
            return Ok(0);
        }
        buf[0] = *first;
        self.left = left;
        Ok(1)
    }
}

/// Answers the whole of the first word's bytes by a reader of std, and how many calls that took.
pub(crate) fn by_std(alloc: Global, call: &Call) -> Result<String, Memory> {
    let mut source = FromStd::new(FailsOnce {
        left: call.bytes(1),
        failing: u64::try_from(call.number(2)).unwrap_or(0),
        calls: 0,
    });
    let bytes = read_to_limit(alloc, &mut source, limit(call, 3));
    let mut line = told(alloc, bytes)?;
    calls::push_number(alloc, &mut line, i128::from(source.into_inner().calls))?;
    Ok(line)
}
