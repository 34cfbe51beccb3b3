//! Calls of two replicas, or of a replica and an inventory. The words are both.

use crate::spelled::{inventory, replica};
use crate::told;
use cadf_json::Memory;
use cadf_replica::Replica;
use calls::{Call, answer, is_refused, push_answer};
use std::alloc::Global;

/// Answers the call of that name; if an allocation failed, also what it answers when it is made again.
pub(crate) fn answered(alloc: Global, name: &str, call: &Call) -> Result<String, Memory> {
    let mut ours = replica(alloc, call.text(1))?;
    let mut line = told_with(alloc, name, &mut ours, call.text(2))?;
    if is_refused(line.as_str()) {
        push_answer(
            &mut line,
            told_with(alloc, name, &mut ours, call.text(2))?.as_str(),
        )?;
    }
    Ok(line)
}

/// Answers the delta for the inventory of the word.
fn missing_by(alloc: Global, ours: &Replica, word: &str) -> Result<String, Memory> {
    let theirs = inventory(alloc, word)?;
    told::part(alloc, ours.missing_by(&theirs))
}

/// Answers the same by the digests of the replica's atoms.
fn missing_by_digests(alloc: Global, ours: &Replica, word: &str) -> Result<String, Memory> {
    let theirs = inventory(alloc, word)?;
    let digests = ours.digests()?;
    told::part(alloc, ours.missing_by_digests(digests.as_slice(), &theirs))
}

/// Answers a call about a replica, and the replica or the inventory of the word.
fn told_with(alloc: Global, name: &str, ours: &mut Replica, word: &str) -> Result<String, Memory> {
    match name {
        "missing_by" => missing_by(alloc, ours, word),
        "missing_by_digests" => missing_by_digests(alloc, ours, word),
        _ => told_of_both(alloc, name, ours, &replica(alloc, word)?),
    }
}

fn told_of_both(
    alloc: Global,
    name: &str,
    ours: &mut Replica,
    theirs: &Replica,
) -> Result<String, Memory> {
    match name {
        "same" => told::truth(alloc, ours.same(theirs)),
        "join" => joined(alloc, ours, theirs),
        "join_twice" => joined_twice(alloc, ours, theirs),
        "missing" => told::part(alloc, ours.missing(theirs)),
        _ => answer(alloc, "no such call", &[]),
    }
}

fn joined(alloc: Global, ours: &mut Replica, theirs: &Replica) -> Result<String, Memory> {
    let outcome = ours.join(theirs);
    told::changed(alloc, outcome, ours)
}

fn joined_twice(alloc: Global, ours: &mut Replica, theirs: &Replica) -> Result<String, Memory> {
    let outcome = ours.join_twice(theirs);
    told::changed(alloc, outcome, ours)
}
