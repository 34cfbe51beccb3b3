//! Calls of rulings. The words are a letter, a key, and a digest or a value; or a replica, and these.

use crate::spelled::{letter_at, replica};
use crate::told;
use cadf_json::Memory;
use cadf_replica::{Replica, Ruling, RulingFault};
use calls::{Call, answer, is_refused, push, push_answer, refused};
use std::alloc::Global;

/// Answers the call of that name.
pub(crate) fn answered(alloc: Global, name: &str, call: &Call) -> Result<String, Memory> {
    match name {
        "read" => told_of(alloc, read(alloc, call, 1)),
        "of" => told_of(
            alloc,
            Ruling::of(alloc, letter_at(call, 1), call.text(2), call.text(3)),
        ),
        "take" => taken(alloc, replica(alloc, call.text(1)), read(alloc, call, 2)),
        "rulings" => listed(alloc, replica(alloc, call.text(1))),
        _ => answer(alloc, "no such call", &[]),
    }
}

/// Answers the ruling that the three words from this one on spell.
fn read(alloc: Global, call: &Call, first: usize) -> Result<Ruling, RulingFault> {
    let (key, digest) = (first.saturating_add(1), first.saturating_add(2));
    Ruling::read(
        alloc,
        letter_at(call, first),
        call.text(key),
        call.text(digest),
    )
}

fn told_of(alloc: Global, read: Result<Ruling, RulingFault>) -> Result<String, Memory> {
    match read {
        Ok(ruling) => spelled(alloc, &ruling),
        Err(fault) => refused(alloc, &fault),
    }
}

fn spelled(alloc: Global, ruling: &Ruling) -> Result<String, Memory> {
    let mut line = format!(in alloc; "ok\t{}", ruling.letter())?;
    push(&mut line, ruling.key())?;
    push(&mut line, ruling.digest())?;
    Ok(line)
}

/// Answers the replica with the ruling.
fn taken(
    alloc: Global,
    ours: Result<Replica, Memory>,
    read: Result<Ruling, RulingFault>,
) -> Result<String, Memory> {
    let ours = ours?;
    match read {
        Ok(ruling) => with_ruling(alloc, ours, &ruling),
        Err(fault) => refused(alloc, &fault),
    }
}

/// Answers the replica with the ruling; if an allocation failed, also the replica after a second try.
fn with_ruling(alloc: Global, mut ours: Replica, ruling: &Ruling) -> Result<String, Memory> {
    let mut line = took(alloc, &mut ours, ruling)?;
    if is_refused(line.as_str()) {
        push_answer(&mut line, took(alloc, &mut ours, ruling)?.as_str())?;
    }
    Ok(line)
}

fn took(alloc: Global, ours: &mut Replica, ruling: &Ruling) -> Result<String, Memory> {
    let outcome = ours.take_ruling(ruling);
    told::grown(alloc, outcome, ours)
}

/// Answers the rulings of the replica, each its letter, key and digest, as fields.
fn listed(alloc: Global, ours: Result<Replica, Memory>) -> Result<String, Memory> {
    let rulings = ours?.rulings()?;
    spelled_all(alloc, rulings.as_slice())
}

fn spelled_all(alloc: Global, rulings: &[Ruling]) -> Result<String, Memory> {
    let mut line = answer(alloc, "ok", &[])?;
    for ruling in rulings {
        push_ruling(&mut line, ruling)?;
    }
    Ok(line)
}

fn push_ruling(line: &mut String, ruling: &Ruling) -> Result<(), Memory> {
    push(line, ruling.kind().letter().text())?;
    push(line, ruling.key())?;
    push(line, ruling.digest())
}
