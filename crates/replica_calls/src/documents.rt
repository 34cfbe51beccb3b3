//! Calls that add a document, or its parts of one kind, to a replica. The words are the replica and the document.

use crate::spelled::replica;
use crate::told;
use cadf_event::Document;
use cadf_json::Memory;
use cadf_replica::Replica;
use calls::{Call, answer, is_refused, push_answer, refused};
use std::alloc::Global;

/// Answers the call of that name.
pub(crate) fn answered(alloc: Global, name: &str, call: &Call) -> Result<String, Memory> {
    let ours = replica(alloc, call.text(1))?;
    match Document::read_bytes(alloc, call.bytes(2)) {
        Ok(document) => of_document(alloc, name, ours, &document),
        Err(fault) => refused(alloc, &fault),
    }
}

/// Answers a call about the document; if an allocation failed, also what it answers when it is made again.
fn of_document(
    alloc: Global,
    name: &str,
    mut ours: Replica,
    document: &Document,
) -> Result<String, Memory> {
    let mut line = taken(alloc, name, &mut ours, document)?;
    if is_refused(line.as_str()) {
        push_answer(&mut line, taken(alloc, name, &mut ours, document)?.as_str())?;
    }
    Ok(line)
}

fn taken(
    alloc: Global,
    name: &str,
    ours: &mut Replica,
    document: &Document,
) -> Result<String, Memory> {
    let outcome = match name {
        "take" => return all(alloc, ours, document),
        "take_sightings" => sightings(ours, document),
        "take_entities" => entities(ours, document),
        "take_properties" => properties(ours, document),
        _ => return answer(alloc, "no such call", &[]),
    };
    told::grown(alloc, outcome, ours)
}

fn all(alloc: Global, ours: &mut Replica, document: &Document) -> Result<String, Memory> {
    let outcome = ours.take_document(document);
    told::changed(alloc, outcome, ours)
}

fn sightings(ours: &mut Replica, document: &Document) -> Result<(), Memory> {
    for sighting in document.sightings() {
        ours.take(sighting)?;
    }
    Ok(())
}

fn entities(ours: &mut Replica, document: &Document) -> Result<(), Memory> {
    for entity in document.entities() {
        ours.take_entity(entity)?;
    }
    Ok(())
}

fn properties(ours: &mut Replica, document: &Document) -> Result<(), Memory> {
    for property in document.properties() {
        ours.take_property(property)?;
    }
    Ok(())
}
