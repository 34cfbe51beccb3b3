//! Inventory files that are read and written.

use crate::reads::Reading;
use crate::streams::{sink_of, written};
use cadf_event::Name;
use cadf_file::FileFault;
use cadf_inventory::{inventory_digest, read_inventory, write_inventory};
use cadf_json::Memory;
use cadf_replica::Inventory;
use calls::{Call, answer, push, refused};
use std::alloc::Global;

/// Answers `ok` with the inventory's log and its digests.
pub(crate) fn shown(alloc: Global, inventory: &Inventory) -> Result<String, Memory> {
    let mut line = answer(alloc, "ok", &[inventory.log().as_str()])?;
    for digest in inventory.digests() {
        push(&mut line, hex::encode(alloc, digest)?.as_str())?;
    }
    Ok(line)
}

/// Reads the bytes as an inventory file.
fn read_in(alloc: Global, reading: Reading, bytes: &[u8]) -> Result<Inventory, FileFault> {
    read_inventory(alloc, &mut reading.source(bytes), reading.limit)
}

/// Answers `read_inventory`: a reading and a file.
pub(crate) fn read(alloc: Global, call: &Call) -> Result<String, Memory> {
    match read_in(alloc, Reading::of(call), call.bytes(4)) {
        Ok(inventory) => shown(alloc, &inventory),
        Err(fault) => refused(alloc, &fault),
    }
}

/// Adds the digest that the word encodes. `false` if it encodes none.
fn put(inventory: &mut Inventory, word: &str) -> bool {
    let mut digest = [0u8; 32];
    hex::decode_to_slice(word, &mut digest).is_ok() && inventory.put(&digest).is_ok()
}

/// Makes the inventory of the log that the word at that place names, with the digests after it. `None` if one is
/// refused.
pub(crate) fn inventory_of(alloc: Global, call: &Call, place: usize) -> Option<Inventory> {
    inventory_between(alloc, call, place, place, call.count())
}

/// Makes the inventory of the log that the word at `log` names, with the digests after word `from`, up to word `to`.
/// `None` if one is refused.
pub(crate) fn inventory_between(
    alloc: Global,
    call: &Call,
    log: usize,
    from: usize,
    to: usize,
) -> Option<Inventory> {
    let log = Name::read(alloc, call.text(log)).ok()?;
    let mut inventory = Inventory::new(alloc, log);
    let mut is_whole = true;
    for at in from..to {
        is_whole &= put(&mut inventory, call.text(at.saturating_add(1)));
    }
    if is_whole { Some(inventory) } else { None }
}

/// Answers `write_inventory`: a writer, a log and digests.
pub(crate) fn write(alloc: Global, call: &Call) -> Result<String, Memory> {
    let Some(inventory) = inventory_of(alloc, call, 4) else {
        return answer(alloc, "no inventory", &[]);
    };
    let mut sink = sink_of(alloc, call, 1);
    let done = write_inventory(alloc, &inventory, &mut sink);
    written(alloc, done, &sink)
}

/// Answers `inventory_digest`: a log and digests.
pub(crate) fn digest(alloc: Global, call: &Call) -> Result<String, Memory> {
    match inventory_of(alloc, call, 1) {
        Some(inventory) => {
            let digest = inventory_digest(alloc, &inventory)?;
            answer(alloc, "ok", &[hex::encode(alloc, &digest)?.as_str()])
        }
        None => answer(alloc, "no inventory", &[]),
    }
}
