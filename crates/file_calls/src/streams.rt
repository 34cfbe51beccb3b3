//! Readers and writers as words.

use cadf_json::{Memory, OutFault};
use calls::{Call, MemorySink, answer, push_bytes, refused};
use std::alloc::Global;

/// Makes the writer of the three words from that place on: how many bytes it takes at once, what it does at a write
/// (`never`, `refuses` or `takes-nothing`), and the number of that write.
pub(crate) fn sink_of(alloc: Global, call: &Call, place: usize) -> MemorySink {
    MemorySink::new(
        alloc,
        call.number(place),
        call.text(place.saturating_add(1)),
        call.number(place.saturating_add(2)),
    )
}

/// Answers a call that writes: how it ended, and all that was written.
pub(crate) fn written(
    alloc: Global,
    done: Result<(), OutFault>,
    sink: &MemorySink,
) -> Result<String, Memory> {
    let mut line = match done {
        Ok(()) => answer(alloc, "ok", &[])?,
        Err(fault) => refused(alloc, &fault)?,
    };
    push_bytes(&mut line, sink.bytes())?;
    Ok(line)
}
