//! Calls of atoms. The first word is a line.

use crate::spelled::{atom, letter_at};
use crate::told;
use cadf_json::Memory;
use cadf_replica::{Atom, KeyKind, Letter};
use calls::{Call, answer, refused};
use std::alloc::Global;
use std::cmp::Ordering;

/// Answers the call of that name.
pub(crate) fn answered(alloc: Global, name: &str, call: &Call) -> Result<String, Memory> {
    match name {
        "letter" => letter(alloc, call.text(1)),
        "kind" => kind(alloc, KeyKind::of(letter_at(call, 1))),
        "kind_of_text" => kind(alloc, KeyKind::read(call.text(1))),
        "read" => read(alloc, call.text(1)),
        _ => match atom(alloc, call.text(1))? {
            Some(atom) => told_of(alloc, name, atom, call),
            None => answer(alloc, "no atom", &[]),
        },
    }
}

/// Answers the texts of the atom of the line, or why it is none.
fn read(alloc: Global, line: &str) -> Result<String, Memory> {
    match Atom::read(alloc, line) {
        Ok(atom) => told::texts(alloc, atom.parts()),
        Err(fault) => refused(alloc, &fault),
    }
}

fn told_of(alloc: Global, name: &str, atom: Atom, call: &Call) -> Result<String, Memory> {
    match name {
        "line" => line(alloc, &atom),
        "digest" => digest(alloc, &atom),
        "compare" => compared(alloc, &atom, call.text(2)),
        "new" => told::texts(alloc, Atom::new(atom.into_parts()).parts()),
        _ => answer(alloc, "no such call", &[]),
    }
}

/// Answers the line of the atom.
fn line(alloc: Global, atom: &Atom) -> Result<String, Memory> {
    answer(alloc, "ok", &[atom.line(alloc)?.as_str()])
}

/// Answers the digits of the atom's digest.
fn digest(alloc: Global, atom: &Atom) -> Result<String, Memory> {
    let digits = hex::encode(alloc, atom.digest(alloc)?)?;
    answer(alloc, "ok", &[digits.as_str()])
}

/// Compares the atom with that of the line.
fn compared(alloc: Global, one: &Atom, line: &str) -> Result<String, Memory> {
    match atom(alloc, line)? {
        Some(other) => answer(alloc, order(one.compare(&other)), &[]),
        None => answer(alloc, "no atom", &[]),
    }
}

fn order(order: Ordering) -> &'static str {
    match order {
        Ordering::Less => "Less",
        Ordering::Equal => "Equal",
        Ordering::Greater => "Greater",
    }
}

/// Answers the letter of that name, as a text and as a character.
fn letter(alloc: Global, name: &str) -> Result<String, Memory> {
    let letter = match name {
        "Event" => Letter::Event,
        "Geolocation" => Letter::Geolocation,
        "Metric" => Letter::Metric,
        "Property" => Letter::Property,
        "Resource" => Letter::Resource,
        "Ruling" => Letter::Ruling,
        "Attachment" => Letter::Attachment,
        "Chain" => Letter::Chain,
        _ => Letter::Tag,
    };
    format!(in alloc; "{}\t{}", letter.text(), letter.char())
}

/// Answers the letter of the kind, if there is one.
fn kind(alloc: Global, found: Option<KeyKind>) -> Result<String, Memory> {
    match found {
        Some(kind) => answer(alloc, "some", &[kind.letter().text()]),
        None => answer(alloc, "none", &[]),
    }
}
