//! Events.

use cadf_event::{Sighting, Step};
use cadf_json::{Json, Memory};
use std::alloc::Global;

/// Adds a word and the texts of the steps.
fn push_chain(line: &mut String, chain: &[Step]) -> Result<(), Memory> {
    calls::push(line, "chain")?;
    for step in chain {
        calls::push(line, step.text())?;
    }
    Ok(())
}

/// Adds a word and a text.
pub(crate) fn push_named(line: &mut String, word: &str, text: &str) -> Result<(), Memory> {
    calls::push(line, word)?;
    calls::push(line, text)
}

/// Adds the chains.
fn push_chains(line: &mut String, seen: &Sighting) -> Result<(), Memory> {
    for chain in seen.chains() {
        push_chain(line, chain)?;
    }
    Ok(())
}

/// Adds the tags.
fn push_tags(line: &mut String, seen: &Sighting) -> Result<(), Memory> {
    for tag in seen.tags() {
        push_named(line, "tag", tag.as_str())?;
    }
    Ok(())
}

/// Adds the attachments.
fn push_attachments(line: &mut String, seen: &Sighting) -> Result<(), Memory> {
    for attachment in seen.attachments() {
        push_named(line, "attachment", attachment.as_str())?;
    }
    Ok(())
}

/// Adds the event's identifier, instant and body, its chains, tags and attachments.
pub(crate) fn push(alloc: Global, line: &mut String, seen: &Sighting) -> Result<(), Memory> {
    seen.type_invariant();
    calls::push(line, seen.id().as_str())?;
    calls::push_number(alloc, line, seen.body().instant())?;
    calls::push(line, seen.body().text())?;
    push_chains(line, seen)?;
    push_tags(line, seen)?;
    push_attachments(line, seen)
}

/// Answers the parts of the event that was read.
fn told(alloc: Global, seen: &Sighting) -> Result<String, Memory> {
    let mut line = calls::answer(alloc, "ok", &[])?;
    push(alloc, &mut line, seen)?;
    Ok(line)
}

/// Answers the event that the text spells, or why there is none.
pub(crate) fn event(alloc: Global, text: &str) -> Result<String, Memory> {
    match Json::read(alloc, text.as_bytes()) {
        Ok(json) => match Sighting::read(alloc, &json.view()) {
            Ok(seen) => told(alloc, &seen),
            Err(fault) => calls::refused(alloc, &fault),
        },
        Err(fault) => calls::refused(alloc, &fault),
    }
}
