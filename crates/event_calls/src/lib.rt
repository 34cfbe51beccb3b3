//! Calls of names, words, events and their parts, entities, properties and documents.
#![tactic(auto)]

mod documents;
mod events;
mod faults;
mod parts;
mod words;

use cadf_event::laws as held;
use calls::Call;
use std::alloc::{AllocError as Memory, Global};

/// Makes the call, and returns the line of its answer. An `Err` is a failed allocation.
pub fn answered(alloc: Global, call: &Call) -> Result<String, Memory> {
    let text = call.text(1);
    match call.name() {
        "name" => words::name(alloc, text),
        "is_valid_name" => words::named(alloc, text),
        "is_reserved" => words::reserved(alloc, text),
        "event_type" => words::event_type(alloc, text),
        "outcome" => words::outcome(alloc, text),
        "role" => words::role(alloc, text),
        "event" => events::event(alloc, text),
        "body" => parts::body(alloc, text),
        "body_with" => parts::body_with(alloc, text),
        "step" => parts::step(alloc, text),
        "step_with" => parts::step_with(alloc, text),
        "attachment" => parts::attachment(alloc, text),
        "entity" => parts::entity(alloc, text, call.text(2)),
        "property" => parts::property(alloc, text, call.text(2)),
        "document" => documents::document(alloc, text),
        "document_bytes" => documents::of_bytes(alloc, call.bytes(1)),
        "fault" => faults::shown(alloc, call),
        "repeated" => repeated(alloc, call),
        _ => calls::answer(alloc, "no such call", &[]),
    }
}

/// Makes the call of the first word on bytes of which a part is repeated.
fn repeated(alloc: Global, call: &Call) -> Result<String, Memory> {
    let bytes = call.repeated(alloc)?;
    let text = str::from_utf8(bytes.as_slice()).unwrap_or("");
    match call.text(1) {
        "document_bytes" => documents::of_bytes(alloc, bytes.as_slice()),
        "body_with" => parts::body_with(alloc, text),
        "step_with" => parts::step_with(alloc, text),
        _ => calls::answer(alloc, "no such call", &[]),
    }
}

/// Calls the laws of events, entities, properties and documents.
pub fn laws() {
    held::bodies_are_of_events();
    held::steps_are_of_events();
    held::attachments_are_of_events();
    held::bodies_exclude_separate_parts();
    held::name_text_is_read_back();
    held::event_fault_is_unique();
    held::entity_fault_is_unique();
    held::property_fault_is_unique();
    held::document_fault_is_unique();
    held::document_bytes_fault_is_unique();
}
