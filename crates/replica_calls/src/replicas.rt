//! Calls of one replica, which is the first word. The second is the line of an atom.

use crate::kept::lists;
use crate::spelled::{atom, of_inventory, replica};
use crate::told;
use cadf_json::Memory;
use cadf_replica::{Atom, Inventory, Replica};
use calls::{Call, answer, is_refused, push, push_answer};
use std::alloc::Global;

/// Answers the call of that name; if an allocation failed, also what it answers when it is made again.
pub(crate) fn answered(alloc: Global, name: &str, call: &Call) -> Result<String, Memory> {
    let mut ours = replica(alloc, call.text(1))?;
    let mut line = told_of(alloc, name, &mut ours, call.text(2))?;
    if is_refused(line.as_str()) {
        push_answer(
            &mut line,
            told_of(alloc, name, &mut ours, call.text(2))?.as_str(),
        )?;
    }
    Ok(line)
}

fn told_of(alloc: Global, name: &str, ours: &mut Replica, word: &str) -> Result<String, Memory> {
    match name {
        "atom_count" => told::number(alloc, ours.atom_count()),
        "conflict_count" => told::number(alloc, ours.conflict_count()),
        "copy" => told::made(alloc, ours.copy()),
        "walk" => told::found_lists(alloc, lists(alloc, ours)),
        "digests" => digests(alloc, ours),
        "inventory" => noted(alloc, &ours.inventory()?),
        "inventory_of" => inventory_of(alloc, ours),
        "least_atom" => found(alloc, ours.atom_after(None)),
        _ => told_with(alloc, name, ours, word),
    }
}

/// Answers a call about a replica and the atom of the line.
fn told_with(alloc: Global, name: &str, ours: &mut Replica, line: &str) -> Result<String, Memory> {
    match atom(alloc, line)? {
        Some(atom) => told_of_atom(alloc, name, ours, &atom),
        None => answer(alloc, "no atom", &[]),
    }
}

/// Answers a call about a replica and an atom.
fn told_of_atom(
    alloc: Global,
    name: &str,
    ours: &mut Replica,
    atom: &Atom,
) -> Result<String, Memory> {
    match name {
        "holds" => told::truth(alloc, ours.holds(atom)),
        "atom_after" => found(alloc, ours.atom_after(Some(atom))),
        "put" => put(alloc, ours, atom),
        "put_after" => put_after(alloc, ours, atom),
        "push_if_last" => push_if_last(alloc, ours, atom),
        _ => answer(alloc, "no such call", &[]),
    }
}

/// Answers the line of the atom, if there is one.
fn found(alloc: Global, atom: Result<Option<Atom>, Memory>) -> Result<String, Memory> {
    match atom? {
        Some(atom) => told::text(alloc, Some(atom.line(alloc)?)),
        None => told::text(alloc, None),
    }
}

/// Answers the digits of each atom's digest, each a field.
fn digests(alloc: Global, ours: &Replica) -> Result<String, Memory> {
    let mut line = answer(alloc, "ok", &[])?;
    for digest in ours.digests()? {
        push(&mut line, hex::encode(alloc, digest)?.as_str())?;
    }
    Ok(line)
}

/// Answers the inventory that is made of the digests of the replica's atoms.
fn inventory_of(alloc: Global, ours: &Replica) -> Result<String, Memory> {
    let log = ours.log().copy(alloc)?;
    let digests = ours.digests()?;
    let made = Inventory::of(alloc, log, digests)?;
    noted(alloc, &made)
}

/// Answers the inventory.
fn noted(alloc: Global, inventory: &Inventory) -> Result<String, Memory> {
    let lines = of_inventory(alloc, inventory)?;
    answer(alloc, "ok", &[lines.as_str()])
}

fn put(alloc: Global, ours: &mut Replica, atom: &Atom) -> Result<String, Memory> {
    let outcome = ours.put(atom);
    told::changed(alloc, outcome, ours)
}

fn put_after(alloc: Global, ours: &mut Replica, atom: &Atom) -> Result<String, Memory> {
    match ours.put_after(atom.parts(), 0) {
        Ok(_) => told::replica(alloc, ours),
        Err(fault) => told::kept(alloc, fault, ours),
    }
}

/// Answers whether the atom was appended, or why not, and the replica after it.
fn push_if_last(alloc: Global, ours: &mut Replica, atom: &Atom) -> Result<String, Memory> {
    match ours.push_if_last(atom.parts(), 0) {
        Ok(true) => told::replica(alloc, ours),
        Ok(false) => answer(alloc, "not above", &[]),
        Err(fault) => told::kept(alloc, fault, ours),
    }
}
