//! Answers of the forms that most calls have.

use crate::spelled::{of_list, of_replica};
use cadf_json::Memory;
use cadf_replica::{Replica, ReplicaFault};
use calls::{answer, push, refused};
use std::alloc::Global;

/// Answers `true` or `false`.
pub(crate) fn truth(alloc: Global, truth: bool) -> Result<String, Memory> {
    answer(alloc, if truth { "true" } else { "false" }, &[])
}

/// Answers a number.
pub(crate) fn number(alloc: Global, number: u64) -> Result<String, Memory> {
    format!(in alloc; "{number}")
}

/// Answers `ok` with a text, or with none.
pub(crate) fn text(alloc: Global, found: Option<String>) -> Result<String, Memory> {
    match found {
        Some(text) => answer(alloc, "ok", &["some", text.as_str()]),
        None => answer(alloc, "ok", &["none"]),
    }
}

/// Answers `ok` with the text that was found, or with none.
pub(crate) fn found_text(
    alloc: Global,
    found: Result<Option<String>, Memory>,
) -> Result<String, Memory> {
    text(alloc, found?)
}

/// Answers `ok` with these texts, each a field.
pub(crate) fn texts(alloc: Global, texts: &[String]) -> Result<String, Memory> {
    let mut line = answer(alloc, "ok", &[])?;
    for text in texts {
        push(&mut line, text.as_str())?;
    }
    Ok(line)
}

/// Answers `ok` with the texts that were found, each a field.
pub(crate) fn found_texts(
    alloc: Global,
    found: Result<Vec<String>, Memory>,
) -> Result<String, Memory> {
    texts(alloc, &found?)
}

/// Answers `ok` with these lists, each a field.
fn lists(alloc: Global, lists: &[Vec<String>]) -> Result<String, Memory> {
    let mut line = answer(alloc, "ok", &[])?;
    for list in lists {
        push(&mut line, of_list(alloc, list)?.as_str())?;
    }
    Ok(line)
}

/// Answers `ok` with the lists that were found, each a field.
pub(crate) fn found_lists(
    alloc: Global,
    found: Result<Vec<Vec<String>>, Memory>,
) -> Result<String, Memory> {
    lists(alloc, &found?)
}

/// Answers `ok` with the replica.
pub(crate) fn replica(alloc: Global, replica: &Replica) -> Result<String, Memory> {
    let lines = of_replica(alloc, replica)?;
    answer(alloc, "ok", &[lines.as_str()])
}

/// Answers `ok` with the replica that was made.
pub(crate) fn made(alloc: Global, made: Result<Replica, Memory>) -> Result<String, Memory> {
    replica(alloc, &made?)
}

/// Answers the result of a change, and the replica after it.
pub(crate) fn changed(
    alloc: Global,
    outcome: Result<(), ReplicaFault>,
    after: &Replica,
) -> Result<String, Memory> {
    match outcome {
        Ok(()) => replica(alloc, after),
        Err(fault) => kept(alloc, fault, after),
    }
}

/// Answers the result of a change that fails only for lack of memory, and the replica after it.
pub(crate) fn grown(
    alloc: Global,
    outcome: Result<(), Memory>,
    after: &Replica,
) -> Result<String, Memory> {
    match outcome {
        Ok(()) => replica(alloc, after),
        Err(_) => kept(alloc, ReplicaFault::Memory, after),
    }
}

/// Answers why a change was refused, and the replica, which is as before.
pub(crate) fn kept(alloc: Global, fault: ReplicaFault, after: &Replica) -> Result<String, Memory> {
    let mut line = refused(alloc, &fault)?;
    push(&mut line, of_replica(alloc, after)?.as_str())?;
    Ok(line)
}

/// Answers the delta, or why there is none.
pub(crate) fn part(alloc: Global, found: Result<Replica, ReplicaFault>) -> Result<String, Memory> {
    match found {
        Ok(part) => replica(alloc, &part),
        Err(fault) => refused(alloc, &fault),
    }
}
