//! The log text and the conflict text that are written of a replica.

use crate::replicas::replica_of;
use crate::streams::{sink_of, written};
use cadf_json::Memory;
use cadf_log::{write_conflicts, write_log};
use calls::{Call, answer};
use std::alloc::Global;

/// Answers `write_log` or `write_conflicts`: a writer, a log and the lines of its atoms.
pub(crate) fn write(alloc: Global, call: &Call) -> Result<String, Memory> {
    let Some(replica) = replica_of(alloc, call, 4) else {
        return answer(alloc, "no replica", &[]);
    };
    let mut sink = sink_of(alloc, call, 1);
    let done = if call.name() == "write_log" {
        write_log(alloc, &replica, &mut sink)
    } else {
        write_conflicts(alloc, &replica, &mut sink)
    };
    written(alloc, done, &sink)
}
