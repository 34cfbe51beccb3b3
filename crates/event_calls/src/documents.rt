//! Documents: logs and single events.

use crate::{events, parts};
use cadf_event::{Document, Sighting};
use cadf_json::{Json, Memory};
use std::alloc::Global;

/// Adds an event.
fn push_event(alloc: Global, line: &mut String, seen: &Sighting) -> Result<(), Memory> {
    calls::push(line, "event")?;
    events::push(alloc, line, seen)
}

/// Adds the events.
fn push_events(alloc: Global, line: &mut String, document: &Document) -> Result<(), Memory> {
    for seen in document.sightings() {
        push_event(alloc, line, seen)?;
    }
    Ok(())
}

/// Adds the entities.
fn push_entities(line: &mut String, document: &Document) -> Result<(), Memory> {
    for entity in document.entities() {
        parts::push_entity(line, entity)?;
    }
    Ok(())
}

/// Adds the properties.
fn push_properties(line: &mut String, document: &Document) -> Result<(), Memory> {
    for property in document.properties() {
        parts::push_property(line, property)?;
    }
    Ok(())
}

/// Answers the document's log, events, entities and properties.
fn told(alloc: Global, document: &Document) -> Result<String, Memory> {
    document.type_invariant();
    let mut line = calls::answer(alloc, "ok", &[])?;
    match document.log() {
        Some(log) => events::push_named(&mut line, "log", log.as_str())?,
        None => calls::push(&mut line, "no log")?,
    }
    push_events(alloc, &mut line, document)?;
    push_entities(&mut line, document)?;
    push_properties(&mut line, document)?;
    Ok(line)
}

/// Answers the document that the text spells, or why there is none.
pub(crate) fn document(alloc: Global, text: &str) -> Result<String, Memory> {
    match Json::read(alloc, text.as_bytes()) {
        Ok(json) => match Document::read(alloc, &json.view()) {
            Ok(document) => told(alloc, &document),
            Err(fault) => calls::refused(alloc, &fault),
        },
        Err(fault) => calls::refused(alloc, &fault),
    }
}

/// Answers the document that the bytes spell, or why there is none.
pub(crate) fn of_bytes(alloc: Global, bytes: &[u8]) -> Result<String, Memory> {
    match Document::read_bytes(alloc, bytes) {
        Ok(document) => told(alloc, &document),
        Err(fault) => calls::refused(alloc, &fault),
    }
}
