//! Replica files that are given in pieces.

ghost use Rattle.std.specs.Prelude.{◌≡◌, OnOk, None};

use crate::reads::{Reading, read_answer};
use cadf_file::{FileFault, ReplicaFeed, read_rest};
use cadf_json::Memory;
use cadf_replica::Replica;
use calls::{Call, answer, push_number, refused};
use std::alloc::Global;

/// Feeds a piece.
fn fed(feed: &mut ReplicaFeed, piece: &[u8]) -> Result<(), FileFault>
    ensures { OnOk result (feed.new.refused ≡ None) }
{
    feed.feed(piece)
}

/// Adds an answer after others.
fn push_answer(line: &mut String, answer: &str) -> Result<(), Memory> {
    line.push('\t')?;
    line.push_str(answer)
}

/// Feeds a piece, and adds its fault, if any, and how many bytes are then pending.
fn push_fed(
    alloc: Global,
    line: &mut String,
    feed: &mut ReplicaFeed,
    piece: &[u8],
) -> Result<(), Memory> {
    if let Err(fault) = fed(feed, piece) {
        push_answer(line, refused(alloc, &fault)?.as_str())?;
    }
    push_number(alloc, line, feed.pending() as i128)
}

/// Answers `feed`: a limit, whether the source failed at its end, and the pieces. A piece after a refused one is fed,
/// too.
pub(crate) fn feed(alloc: Global, call: &Call) -> Result<String, Memory> {
    let mut feed = ReplicaFeed::new(alloc, call.number(1) as u64);
    let mut line = answer(alloc, "fed", &[])?;
    for place in 2..call.count() {
        push_fed(
            alloc,
            &mut line,
            &mut feed,
            call.bytes(place.saturating_add(1)),
        )?;
    }
    let end = read_answer(alloc, feed.finish(call.text(2) == "failed"))?;
    push_answer(&mut line, end.as_str())?;
    Ok(line)
}

/// Feeds the start, and reads the rest from a reader.
fn read_after(
    alloc: Global,
    reading: Reading,
    start: &[u8],
    rest: &[u8],
) -> Result<Replica, FileFault> {
    let mut feed = ReplicaFeed::new(alloc, reading.limit);
    match fed(&mut feed, start) {
        Ok(()) => read_rest(feed, &mut reading.source(rest)),
        Err(fault) => Err(fault),
    }
}

/// Answers `read_rest`: a reading, the bytes that are fed first, and those that are read.
pub(crate) fn read_rest_of(alloc: Global, call: &Call) -> Result<String, Memory> {
    let read = read_after(alloc, Reading::of(call), call.bytes(4), call.bytes(5));
    read_answer(alloc, read)
}
