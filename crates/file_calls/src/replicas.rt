//! Replicas as words and as answers: the log's identifier and the lines of the atoms.

use cadf_event::Name;
use cadf_json::Memory;
use cadf_replica::{Atom, Replica};
use calls::{Call, answer, push};
use std::alloc::Global;

/// Adds the atom of that line. `false` if the line is no atom's, or its carrier is missing.
fn put(alloc: Global, replica: &mut Replica, line: &str) -> bool {
    match Atom::read(alloc, line) {
        Ok(atom) => replica.put(&atom).is_ok(),
        Err(_) => false,
    }
}

/// Makes the replica of the log that the word at that place names, with the atoms of the lines after it. `None` if one
/// of them is refused.
pub(crate) fn replica_of(alloc: Global, call: &Call, place: usize) -> Option<Replica> {
    let log = Name::read(alloc, call.text(place)).ok()?;
    let mut replica = Replica::new(alloc, log);
    let mut is_whole = true;
    for at in place..call.count() {
        is_whole &= put(alloc, &mut replica, call.text(at.saturating_add(1)));
    }
    if is_whole { Some(replica) } else { None }
}

/// Adds the line of the atom after the given one, and answers that atom. `None` if there is none.
fn push_after(
    alloc: Global,
    line: &mut String,
    replica: &Replica,
    given: Option<&Atom>,
) -> Result<Option<Atom>, Memory> {
    match replica.atom_after(given)? {
        Some(atom) => {
            push(line, atom.line(alloc)?.as_str())?;
            Ok(Some(atom))
        }
        None => Ok(None),
    }
}

/// Answers `ok` with the replica's log and the lines of its atoms.
pub(crate) fn shown(alloc: Global, replica: &Replica) -> Result<String, Memory> {
    let mut line = answer(alloc, "ok", &[replica.log().as_str()])?;
    let mut last = None;
    for _ in 0..replica.atom_count() {
        last = push_after(alloc, &mut line, replica, last.as_ref())?;
    }
    Ok(line)
}
