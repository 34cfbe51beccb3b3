//! Calls of the keys of a replica. The words are the replica, a letter, and a key or another text.

use crate::spelled::{letter_at, replica};
use crate::told;
use cadf_json::Memory;
use cadf_replica::{KeyKind, Replica};
use calls::{Call, answer};
use std::alloc::Global;

/// Answers the call of that name.
pub(crate) fn answered(alloc: Global, name: &str, call: &Call) -> Result<String, Memory> {
    let ours = replica(alloc, call.text(1))?;
    let letter = letter_at(call, 2);
    let key = call.text(3);
    match name {
        "least_key" => told::found_text(alloc, ours.key_after(letter, None)),
        "key_after" => told::found_text(alloc, ours.key_after(letter, Some(key))),
        "values" => told::found_texts(alloc, ours.values(letter, key)),
        "ruled" => told::found_text(alloc, ours.ruled(letter, key)),
        _ => match KeyKind::of(letter) {
            Some(kind) => told_of_kind(alloc, name, &ours, kind, key),
            None => answer(alloc, "no such kind", &[]),
        },
    }
}

fn told_of_kind(
    alloc: Global,
    name: &str,
    ours: &Replica,
    kind: KeyKind,
    key: &str,
) -> Result<String, Memory> {
    match name {
        "keys" => told::found_texts(alloc, ours.keys(kind)),
        "conflicted_keys" => told::found_texts(alloc, ours.conflicted_keys(kind)),
        "shown" => told::found_text(alloc, ours.shown(kind, key)),
        _ => answer(alloc, "no such call", &[]),
    }
}
