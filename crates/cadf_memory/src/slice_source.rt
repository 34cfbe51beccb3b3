//! Bytes in memory that are read.
ghost use Rattle.std.specs.Prelude.{◌≡◌, Some, IfOk, map};
ghost use Rattle.cadf_memory.specs.Memory.{slice_state, unread, bytes_in};

use cadf_json::{Failed, Memory, Source};
use std::alloc::Global;

/// Bytes of the caller's: an address and a length, as C has them.
#[repr(C)]
#[derive(Clone, Copy, Drop)]
pub struct CadfBytes<'b> {
    pub bytes: &'b [u8],
}

/// Returns a source for each of the inputs, which has all the bytes left.
pub(crate) fn sources<'b>(
    alloc: Global,
    inputs: &[CadfBytes<'b>],
) -> Result<Vec<SliceSource<'b>>, Memory>
    ensures { IfOk result (λ sources. map slice_state sources.items ≡ map unread (bytes_in inputs.now)) }
{
    let mut sources = Vec::new(alloc);
    for input in inputs {
        let left = input.bytes;
        sources.push(SliceSource { left, reads: 0 })?;
    }
    Ok(sources)
}

/// Bytes that are read, or borrowed without a copy. No read fails.
#[derive(Drop)]
pub(crate) struct SliceSource<'b> {
    left: &'b [u8],
    reads: u64,
}

impl<'b> Source for SliceSource<'b> {
    ghost left = { λ s. Some s.left.now };

    ghost reads = { λ s. s.reads };

    ghost failures = { λ s. 0 };

    fn read(&mut self, buffer: &mut [u8]) -> Result<usize, Failed> {
        self.reads = self.reads.saturating_add(1);
        let count = self.left.len().min(buffer.len());
        let (given, left) = self.left.split_at(count);
        buffer[..count].copy_from_slice(given);
        self.left = left;
        Ok(count)
    }

    fn borrow_next(&mut self, limit: usize) -> Option<&[u8]> {
        let (borrowed, left) = self.left.split_at(limit.min(self.left.len()));
        self.left = left;
        Some(borrowed)
    }
}
