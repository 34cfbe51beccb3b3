//! An example: joins logs in memory, and lists each key on which they contradict, with its values. Each line of
//! standard input is a document of the log `g`.
#![tactic(auto)]

use cadf_replica::{Document, KeyKind, Name, Replica};
use std::alloc::Global;

/// The identifier of the log.
const LOG: &str = "g";

/// The kinds of keys, in the order of their letters.
const KINDS: [KeyKind; 5] = [
    KeyKind::Event,
    KeyKind::Geolocation,
    KeyKind::Metric,
    KeyKind::Property,
    KeyKind::Resource,
];

/// Makes the replica of what the document contributes. `Err` if the text is no document, or names another log.
fn replica_of(alloc: Global, text: &str) -> anyhow::Result<Replica> {
    let document = Document::read_bytes(alloc, text.as_bytes())?;
    let mut replica = Replica::new(alloc, Name::read(alloc, LOG)?);
    replica.take_document(&document)?;
    Ok(replica)
}

/// Prints the keys of the kind that have several values, each with its values.
fn list(rt: &impl Print, joined: &Replica, kind: KeyKind) -> anyhow::Result<()> {
    let letter = kind.letter().char();
    for key in joined.conflicted_keys(kind)? {
        println!(rt; "{letter} {key}")?;
        for value in joined.values(letter, key.as_str())? {
            println!(rt; "  {value}")?;
        }
    }
    Ok(())
}

fn main(rt: HostRuntime) -> anyhow::Result<()> {
    let alloc = rt.alloc();
    let mut joined = Replica::new(alloc, Name::read(alloc, LOG)?);
    for line in rt.lines(alloc) {
        let line = line?;
        let log = replica_of(alloc, line.as_str())?;
        joined.join(&log)?;
    }
    for kind in KINDS {
        list(&rt, &joined, kind)?;
    }
    Ok(())
}
