//! Calls of inventories. The words are the inventory, and the digits of a digest.

use crate::spelled::{digest, inventory, of_inventory};
use crate::told;
use cadf_json::Memory;
use cadf_replica::Inventory;
use calls::{Call, answer, is_refused, push_answer};
use std::alloc::Global;

/// Answers the call of that name.
pub(crate) fn answered(alloc: Global, name: &str, call: &Call) -> Result<String, Memory> {
    let ours = inventory(alloc, call.text(1))?;
    let given = digest(call.text(2));
    match name {
        "has" => told::truth(alloc, ours.has(&given)),
        "put" => put(alloc, ours, &given),
        "remove" => removed(alloc, ours, &given),
        "least_digest" => found(alloc, ours.digest_after(None)),
        "digest_after" => found(alloc, ours.digest_after(Some(&given))),
        _ => answer(alloc, "no such call", &[]),
    }
}

/// Answers what the inventory is with the digest; if an allocation failed, also what it is when it is put again.
fn put(alloc: Global, mut ours: Inventory, digest: &[u8; 32]) -> Result<String, Memory> {
    let mut line = noted(alloc, &mut ours, digest)?;
    if is_refused(line.as_str()) {
        push_answer(&mut line, noted(alloc, &mut ours, digest)?.as_str())?;
    }
    Ok(line)
}

fn noted(alloc: Global, ours: &mut Inventory, digest: &[u8; 32]) -> Result<String, Memory> {
    let word = match ours.put(digest) {
        Ok(()) => "ok",
        Err(_) => "err\tMemory",
    };
    answer(alloc, word, &[of_inventory(alloc, ours)?.as_str()])
}

fn removed(alloc: Global, mut ours: Inventory, digest: &[u8; 32]) -> Result<String, Memory> {
    ours.remove(digest);
    let lines = of_inventory(alloc, &ours)?;
    answer(alloc, "ok", &[lines.as_str()])
}

fn found(alloc: Global, digest: Option<[u8; 32]>) -> Result<String, Memory> {
    match digest {
        Some(digest) => answer(alloc, "some", &[hex::encode(alloc, digest)?.as_str()]),
        None => answer(alloc, "none", &[]),
    }
}
