//! The texts of faults.

use cadf_event::{Body, Document, Name, Property, Stamp};
use cadf_json::{Json, Memory};
use calls::Call;
use std::alloc::Global;
use std::fmt::Display;

/// Answers the fault's text, if there is a fault.
fn told(alloc: Global, fault: Option<impl Display + Drop>) -> Result<String, Memory> {
    match fault {
        Some(fault) => format!(in alloc; "some\t{fault}"),
        None => calls::answer(alloc, "none", &[]),
    }
}

/// Answers the fault of the property of that name.
fn property(alloc: Global, name: &str, text: &str) -> Result<String, Memory> {
    match Json::read(alloc, text.as_bytes()) {
        Ok(json) => told(alloc, Property::read(alloc, name, &json.view()).err()),
        Err(fault) => told(alloc, Some(fault)),
    }
}

/// Answers the text of the fault of a parse: the first word is the type to parse, the second its text.
pub(crate) fn shown(alloc: Global, call: &Call) -> Result<String, Memory> {
    let text = call.text(2);
    match call.text(1) {
        "time" => told(alloc, Stamp::read(text).err()),
        "name" => told(alloc, Name::read(alloc, text).err()),
        "canonical" => told(alloc, Json::read_canonical(alloc, text).err()),
        "body" => told(alloc, Body::read(alloc, text).err()),
        "document" => told(alloc, Document::read_bytes(alloc, text.as_bytes()).err()),
        _ => property(alloc, text, call.text(3)),
    }
}
