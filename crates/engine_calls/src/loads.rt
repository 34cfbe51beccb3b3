//! Inputs that are loaded.

use crate::answers::Answer;
use crate::words::Words;
use cadf_tool::{LoadFault, Loaded, load, load_within};
use calls::{push, push_number, refused};
use std::alloc::{AllocError as Memory, Global};

/// Appends a count.
fn push_count(alloc: Global, line: &mut String, count: u64) -> Result<(), Memory> {
    push_number(alloc, line, i128::from(count))
}

/// Appends the number of a replica's atoms, or the numbers of a document's events, entities and properties.
fn push_contents(alloc: Global, line: &mut String, loaded: &Loaded) -> Result<(), Memory> {
    match loaded {
        Loaded::Replica(replica) => push_count(alloc, line, replica.atom_count()),
        Loaded::Document(document) => {
            push_count(alloc, line, document.sightings().len() as u64)?;
            push_count(alloc, line, document.entities().len() as u64)?;
            push_count(alloc, line, document.properties().len() as u64)
        }
    }
}

/// Returns the line of an input: `replica` or `document`, the log that it names, and how many atoms, or how many
/// events, entities and properties.
fn shown(alloc: Global, loaded: &Loaded) -> Result<String, Memory> {
    let kind = match loaded {
        Loaded::Replica(_) => "replica",
        Loaded::Document(_) => "document",
    };
    let mut line = calls::answer(alloc, "ok", &[kind])?;
    match loaded.log() {
        Some(log) => {
            push(&mut line, "some")?;
            push(&mut line, log.as_str())?;
        }
        None => push(&mut line, "none")?,
    }
    push_contents(alloc, &mut line, loaded)?;
    Ok(line)
}

/// Returns the answer of a load.
fn told(alloc: Global, loaded: Result<Loaded, LoadFault>) -> Result<Answer, Memory> {
    let told = match loaded {
        Ok(loaded) => shown(alloc, &loaded)?,
        Err(fault) => refused(alloc, &fault)?,
    };
    Ok(Answer::of(alloc, told))
}

/// Runs `load`. Its word is a reader.
pub(crate) fn load_all(alloc: Global, words: Words<'_>) -> Result<Answer, Memory> {
    told(alloc, load(alloc, &mut words.source(1)))
}

/// Runs `load_within`. Its words are a limit and a reader.
pub(crate) fn load_limited(alloc: Global, words: Words<'_>) -> Result<Answer, Memory> {
    let limit = words.number(1) as u64;
    told(alloc, load_within(alloc, &mut words.source(2), limit))
}
