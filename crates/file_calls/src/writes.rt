//! Replica files that are written.

use crate::replicas::replica_of;
use crate::streams::{sink_of, written};
use cadf_file::{Format, write_replica};
use cadf_json::Memory;
use calls::{Call, answer};
use std::alloc::Global;

/// Finds the format of that number.
fn format_of(number: usize) -> Format {
    if number == 1 {
        Format::One
    } else {
        Format::Two
    }
}

/// Answers `write`: a format, a writer, a log and the lines of its atoms.
pub(crate) fn write(alloc: Global, call: &Call) -> Result<String, Memory> {
    let Some(replica) = replica_of(alloc, call, 5) else {
        return answer(alloc, "no replica", &[]);
    };
    let mut sink = sink_of(alloc, call, 2);
    let done = write_replica(alloc, &replica, format_of(call.number(1)), &mut sink);
    written(alloc, done, &sink)
}
