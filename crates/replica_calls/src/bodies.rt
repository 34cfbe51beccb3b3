//! Calls of the parts of a body. The words are the replica, the event's identifier, and the text of the body.

use crate::spelled::{of_list, replica};
use crate::told;
use cadf_json::Memory;
use calls::{Call, answer};
use std::alloc::Global;

/// Answers the call of that name.
pub(crate) fn answered(alloc: Global, name: &str, call: &Call) -> Result<String, Memory> {
    let ours = replica(alloc, call.text(1))?;
    let (id, body) = (call.text(2), call.text(3));
    match name {
        "chains" => told::found_lists(alloc, ours.chains(id, body)),
        "longest_chain" => longest(alloc, ours.longest_chain(id, body)),
        "tags" => told::found_texts(alloc, ours.tags(id, body)),
        "attachments" => told::found_texts(alloc, ours.attachments(id, body)),
        _ => answer(alloc, "no such call", &[]),
    }
}

/// Answers the JSON list of the chain's steps, if there is one.
fn longest(alloc: Global, chain: Result<Option<Vec<String>>, Memory>) -> Result<String, Memory> {
    match chain? {
        Some(chain) => told::text(alloc, Some(of_list(alloc, &chain)?)),
        None => told::text(alloc, None),
    }
}
