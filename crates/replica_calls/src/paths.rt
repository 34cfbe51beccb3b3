//! Calls of lists of texts: their kinds, and the name of a log.

use cadf_event::log_name;
use cadf_json::Memory;
use cadf_replica::{PathKind, path_kind};
use calls::{Call, answer};
use std::alloc::Global;

/// Answers the texts of the words.
fn texts(alloc: Global, call: &Call) -> Result<Vec<String>, Memory> {
    let mut texts = Vec::new(alloc);
    for place in 1..=call.count() {
        texts.push(String::from_str(alloc, call.text(place))?)?;
    }
    Ok(texts)
}

/// Answers the call of that name about the texts that its words are.
pub(crate) fn answered(alloc: Global, name: &str, call: &Call) -> Result<String, Memory> {
    match name {
        "kind" => kind(alloc, path_kind(alloc, &texts(alloc, call)?)?),
        "log_name" => log(alloc, call.text(1)),
        _ => answer(alloc, "no such call", &[]),
    }
}

fn kind(alloc: Global, kind: PathKind) -> Result<String, Memory> {
    let word = match kind {
        PathKind::Whole => "Whole",
        PathKind::Prefix => "Prefix",
        PathKind::Not => "Not",
    };
    answer(alloc, "ok", &[word])
}

/// Answers the name whose canonical text this is.
fn log(alloc: Global, text: &str) -> Result<String, Memory> {
    match log_name(alloc, text)? {
        Some(name) => answer(alloc, "ok", &["some", name.as_str()]),
        None => answer(alloc, "ok", &["none"]),
    }
}
