//! Seals and proofs, files of both that are read and written, and facts that are verified by them.

use crate::inventories::{inventory_between, inventory_of};
use crate::reads::Reading;
use crate::replicas::replica_of;
use crate::streams::{sink_of, written};
use cadf_evidence::{FactLines, Proof, Seal, verified};
use cadf_file::FileFault;
use cadf_json::Memory;
use cadf_linefile::{read_model, write_model};
use cadf_replica::Inventory;
use cadf_tree::{Kind, Part, Root};
use calls::{Call, MemorySink, answer, push, push_number, refused};
use std::alloc::{AllocError, Global};

/// Adds a root: its count and its digits.
fn push_root(alloc: Global, line: &mut String, root: &Root) -> Result<(), Memory> {
    push_number(alloc, line, i128::from(root.count))?;
    push(line, hex::encode(alloc, &root.hash)?.as_str())
}

/// Answers `ok` with the seal's log and both roots.
fn shown(alloc: Global, seal: &Seal) -> Result<String, Memory> {
    let mut line = answer(alloc, "ok", &[seal.log().as_str()])?;
    push_root(alloc, &mut line, seal.facts())?;
    push_root(alloc, &mut line, seal.keys())?;
    Ok(line)
}

/// Reads the bytes as a seal file.
pub(crate) fn read_in(alloc: Global, reading: Reading, bytes: &[u8]) -> Result<Seal, FileFault> {
    read_model(alloc, &mut reading.source(bytes), reading.limit)
}

/// Answers `read_seal`: a reading and a file.
pub(crate) fn read(alloc: Global, call: &Call) -> Result<String, Memory> {
    match read_in(alloc, Reading::of(call), call.bytes(4)) {
        Ok(seal) => shown(alloc, &seal),
        Err(fault) => refused(alloc, &fault),
    }
}

/// Answers `seal`: a number of digests of facts, a log, these, and the digests of keys.
pub(crate) fn seal(alloc: Global, call: &Call) -> Result<String, Memory> {
    match sets_of(alloc, call, 1) {
        Some((facts, keys)) => shown(alloc, &Seal::over(alloc, &facts, &keys)?),
        None => answer(alloc, "no inventory", &[]),
    }
}

/// Answers `root_of`: a log and digests.
pub(crate) fn root(alloc: Global, call: &Call) -> Result<String, Memory> {
    let Some(inventory) = inventory_of(alloc, call, 1) else {
        return answer(alloc, "no inventory", &[]);
    };
    let seal = Seal::over(alloc, &inventory, &inventory)?;
    answer(
        alloc,
        "ok",
        &[hex::encode(alloc, &seal.facts().hash)?.as_str()],
    )
}

/// Answers `write_seal`: a writer, a number of digests of facts, a log, these, and the digests of keys.
pub(crate) fn write(alloc: Global, call: &Call) -> Result<String, Memory> {
    let Some((facts, keys)) = sets_of(alloc, call, 4) else {
        return answer(alloc, "no inventory", &[]);
    };
    let seal = Seal::over(alloc, &facts, &keys)?;
    let mut sink = sink_of(alloc, call, 1);
    let done = write_model(alloc, &seal, &mut sink);
    written(alloc, done, &sink)
}

/// Makes the two inventories of a call: from word `place` on a number, a log, that many digests, and other digests. `None` if
/// one is refused.
fn sets_of(alloc: Global, call: &Call, place: usize) -> Option<(Inventory, Inventory)> {
    let log = place.saturating_add(1);
    let middle = log.saturating_add(call.number(place)).min(call.count());
    let facts = inventory_between(alloc, call, log, log, middle)?;
    let inventory = inventory_between(alloc, call, log, middle, call.count())?;
    Some((facts, inventory))
}

/// Returns the letter of a leaf.
fn letter_of<'a>(kind: &Kind) -> &'a str {
    match kind {
        Kind::Both => "P",
        Kind::Added => "A",
        Kind::Gone => "G",
    }
}

/// Adds the letter and the digits.
fn push_digest(
    alloc: Global,
    line: &mut String,
    letter: &str,
    digest: &[u8; 32],
) -> Result<(), Memory> {
    push(line, letter)?;
    push(line, hex::encode(alloc, digest)?.as_str())
}

/// Adds a part: its letter, and its digits if it has some.
fn push_part(alloc: Global, line: &mut String, part: &Part) -> Result<(), Memory> {
    match part {
        Part::Node => push(line, "N"),
        Part::Hash(hash) => push_digest(alloc, line, "H", hash),
        Part::Leaf(kind, digest) => push_digest(alloc, line, letter_of(kind), digest),
    }
}

/// Adds each part.
fn push_parts(alloc: Global, line: &mut String, parts: &[Part]) -> Result<(), Memory> {
    for part in parts {
        push_part(alloc, line, part)?;
    }
    Ok(())
}

/// Adds the letter that begins the keys' parts, and these, if the proof has some.
fn push_keys(alloc: Global, line: &mut String, proof: &Proof) -> Result<(), Memory> {
    match proof.keys() {
        Some(keys) => {
            push(line, "K")?;
            push_parts(alloc, line, keys)
        }
        None => Ok(()),
    }
}

/// Answers `ok` with the proof's log and its parts.
pub(crate) fn proof_shown(alloc: Global, proof: &Proof) -> Result<String, Memory> {
    let mut line = answer(alloc, "ok", &[proof.log().as_str()])?;
    push_parts(alloc, &mut line, proof.facts())?;
    push_keys(alloc, &mut line, proof)?;
    Ok(line)
}

/// Answers `proof`: a number of facts, a log, these facts, and digests.
pub(crate) fn proof(alloc: Global, call: &Call) -> Result<String, Memory> {
    match sets_of(alloc, call, 1) {
        Some((facts, inventory)) => proof_shown(alloc, &Proof::of(alloc, &facts, &inventory)?),
        None => answer(alloc, "no inventory", &[]),
    }
}

/// Answers `write_proof`: a writer, a number of facts, a log, these facts, and digests.
pub(crate) fn write_proof_of(alloc: Global, call: &Call) -> Result<String, Memory> {
    let Some((facts, inventory)) = sets_of(alloc, call, 4) else {
        return answer(alloc, "no inventory", &[]);
    };
    let proof = Proof::of(alloc, &facts, &inventory)?;
    let mut sink = sink_of(alloc, call, 1);
    let done = write_model(alloc, &proof, &mut sink);
    written(alloc, done, &sink)
}

/// Reads the bytes as a proof file.
pub(crate) fn proof_in(alloc: Global, reading: Reading, bytes: &[u8]) -> Result<Proof, FileFault> {
    read_model(alloc, &mut reading.source(bytes), reading.limit)
}

/// Answers `read_proof`: a reading and a file.
pub(crate) fn read_proof_of(alloc: Global, call: &Call) -> Result<String, Memory> {
    match proof_in(alloc, Reading::of(call), call.bytes(4)) {
        Ok(proof) => proof_shown(alloc, &proof),
        Err(fault) => refused(alloc, &fault),
    }
}

/// Answers `verified`: a reading, the seal's file, the proof's, `present` or `absent`, a log and the lines of the facts.
pub(crate) fn verified_of(alloc: Global, call: &Call) -> Result<String, Memory> {
    let reading = Reading::of(call);
    let Ok(seal) = read_in(alloc, reading, call.bytes(4)) else {
        return answer(alloc, "no seal", &[]);
    };
    let Ok(proof) = proof_in(alloc, reading, call.bytes(5)) else {
        return answer(alloc, "no proof", &[]);
    };
    let Some(facts) = replica_of(alloc, call, 7) else {
        return answer(alloc, "no replica", &[]);
    };
    match verified(alloc, &seal, &facts, &proof, call.text(6) == "absent") {
        Ok(lines) => told(alloc, call.number(2), &lines),
        Err(fault) => refused(alloc, &fault),
    }
}

/// Answers `ok` with the lines, written `piece` bytes at a time.
pub(crate) fn told(alloc: Global, piece: usize, lines: &FactLines) -> Result<String, Memory> {
    let mut sink = MemorySink::new(alloc, piece, "never", 0);
    match lines.write(&mut sink) {
        Ok(()) => written(alloc, Ok(()), &sink),
        Err(_) => Err(AllocError),
    }
}
