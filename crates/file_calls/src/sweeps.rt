//! Files that are read many times: with each read failing, each prefix, each bit changed.

use crate::reads::{Reading, read_in};
use cadf_file::FileFault;
use cadf_json::Memory;
use calls::{Call, answer, push_number, refused};
use std::alloc::Global;

/// Reads the bytes, and answers the fault. `None` if they are accepted.
fn fault_of(alloc: Global, reading: Reading, bytes: &[u8]) -> Option<FileFault> {
    read_in(alloc, reading, bytes).err()
}

/// Answers many readings: what the first one ended with, and how many of them ended so.
fn tallied(alloc: Global, first: Option<FileFault>, count: u64) -> Result<String, Memory> {
    let mut line = match first {
        Some(fault) => refused(alloc, &fault)?,
        None => answer(alloc, "ok", &[])?,
    };
    push_number(alloc, &mut line, i128::from(count))?;
    Ok(line)
}

/// Answers `each_failing_read`: a reading, a file and the number of the last read. Reads once for each number from that
/// of the reading to the last, with that read failing.
pub(crate) fn each_failing_read(alloc: Global, call: &Call) -> Result<String, Memory> {
    let (mut reading, file) = (Reading::of(call), call.bytes(4));
    let first = fault_of(alloc, reading, file);
    let mut count = 0u64;
    for failing in reading.failing..=call.number(5) {
        reading.failing = failing;
        count = count.saturating_add(u64::from(fault_of(alloc, reading, file) == first));
    }
    tallied(alloc, first, count)
}

/// Answers `each_prefix`: a reading and a file. Reads each proper prefix, the empty one first.
pub(crate) fn each_prefix(alloc: Global, call: &Call) -> Result<String, Memory> {
    let (reading, file) = (Reading::of(call), call.bytes(4));
    let first = fault_of(alloc, reading, b"");
    let mut count = 0u64;
    for end in 0..file.len() {
        let prefix = file.get(..end).unwrap_or_default();
        count = count.saturating_add(u64::from(fault_of(alloc, reading, prefix) == first));
    }
    tallied(alloc, first, count)
}

/// Changes that bit of the byte at that place.
fn change(bytes: &mut [u8], place: usize, bit: u8) {
    if let Some(byte) = bytes.get_mut(place) {
        *byte ^= bit;
    }
}

/// Counts the files with one bit of that byte changed that are refused.
fn refused_at(alloc: Global, reading: Reading, bytes: &mut [u8], place: usize) -> u64 {
    let mut count = 0u64;
    for bit in [1u8, 2, 4, 8, 16, 32, 64, 128] {
        change(bytes, place, bit);
        count = count.saturating_add(u64::from(fault_of(alloc, reading, bytes).is_some()));
        change(bytes, place, bit);
    }
    count
}

/// Answers `each_bit`: a reading and a file. Reads the file with each of its bits changed, and counts those refused.
pub(crate) fn each_bit(alloc: Global, call: &Call) -> Result<String, Memory> {
    let reading = Reading::of(call);
    let mut bytes = Vec::new(alloc);
    bytes.extend_from_slice(call.bytes(4))?;
    let mut count = 0u64;
    for place in 0..bytes.len() {
        count = count.saturating_add(refused_at(alloc, reading, &mut bytes, place));
    }
    tallied(alloc, None, count)
}
