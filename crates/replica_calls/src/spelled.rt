//! Values encoded as words, and words decoded to values.

use crate::kept::lists;
use cadf_event::Name;
use cadf_json::{Memory, quoted};
use cadf_replica::{Atom, AtomFault, Inventory, Replica, ReplicaFault};
use calls::Call;
use hex::FromHex;
use std::alloc::Global;

/// Answers the name that the word is. A word that is none is answered as `Memory`.
pub(crate) fn name(alloc: Global, word: &str) -> Result<Name, Memory> {
    match Name::read(alloc, word) {
        Ok(name) => Ok(name),
        Err(_) => Err(Memory),
    }
}

/// Answers the atom of the line, if it is one.
pub(crate) fn atom(alloc: Global, line: &str) -> Result<Option<Atom>, Memory> {
    match Atom::read(alloc, line) {
        Ok(atom) => Ok(Some(atom)),
        Err(AtomFault::Memory) => Err(Memory),
        Err(_) => Ok(None),
    }
}

/// Adds the atom; an atom without its carrier is skipped.
fn put(replica: &mut Replica, atom: &Atom) -> Result<(), Memory> {
    match replica.put(atom) {
        Err(ReplicaFault::Memory) => Err(Memory),
        _ => Ok(()),
    }
}

/// Adds the atom of the line; a line that is no atom's is skipped.
fn put_line(alloc: Global, replica: &mut Replica, line: &str) -> Result<(), Memory> {
    match atom(alloc, line)? {
        Some(atom) => put(replica, &atom),
        None => Ok(()),
    }
}

/// Answers the replica that the word encodes.
pub(crate) fn replica(alloc: Global, word: &str) -> Result<Replica, Memory> {
    let (log, lines) = word.split_once('\n').unwrap_or((word, ""));
    let mut replica = Replica::new(alloc, name(alloc, log)?);
    for line in lines.split('\n') {
        put_line(alloc, &mut replica, line)?;
    }
    Ok(replica)
}

/// Adds the JSON list of the texts.
pub(crate) fn push_list(
    alloc: Global,
    spelled: &mut String,
    list: &[String],
) -> Result<(), Memory> {
    let mut before = '[';
    for text in list {
        spelled.push(before)?;
        spelled.push_str(quoted(alloc, text.as_str())?.as_str())?;
        before = ',';
    }
    spelled.push_str(if before == '[' { "[]" } else { "]" })
}

/// Answers the JSON list of the texts.
pub(crate) fn of_list(alloc: Global, list: &[String]) -> Result<String, Memory> {
    let mut spelled = String::new(alloc);
    push_list(alloc, &mut spelled, list)?;
    Ok(spelled)
}

/// Answers the lines of the replica.
pub(crate) fn of_replica(alloc: Global, replica: &Replica) -> Result<String, Memory> {
    let mut spelled = String::from_str(alloc, replica.log().as_str())?;
    for list in lists(alloc, replica)? {
        spelled.push('\n')?;
        push_list(alloc, &mut spelled, &list)?;
    }
    Ok(spelled)
}

/// Answers the digest that the digits encode; only zeros if they encode none.
pub(crate) fn digest(digits: &str) -> [u8; 32] {
    <[u8; 32] as FromHex>::from_hex(digits).unwrap_or([0; 32])
}

/// Answers the inventory that the word encodes.
pub(crate) fn inventory(alloc: Global, word: &str) -> Result<Inventory, Memory> {
    let (log, lines) = word.split_once('\n').unwrap_or((word, ""));
    let mut inventory = Inventory::new(alloc, name(alloc, log)?);
    for digits in lines.split_ascii_whitespace() {
        inventory.put(&digest(digits))?;
    }
    Ok(inventory)
}

/// Answers the lines of the inventory.
pub(crate) fn of_inventory(alloc: Global, inventory: &Inventory) -> Result<String, Memory> {
    let mut spelled = String::from_str(alloc, inventory.log().as_str())?;
    for digest in inventory.digests() {
        spelled.push('\n')?;
        spelled.push_str(hex::encode(alloc, digest)?.as_str())?;
    }
    Ok(spelled)
}

/// Answers the first character of the word, or a blank.
pub(crate) fn letter_at(call: &Call, place: usize) -> char {
    call.text(place).chars().next().unwrap_or(' ')
}
