//! Lists of keys that are read, proofs that are made for them, and keys that are verified.

use crate::reads::Reading;
use crate::replicas::replica_of;
use crate::seals::{proof_in, proof_shown, read_in, told};
use cadf_evidence::{KeyList, Proof, verified_keys};
use cadf_file::FileFault;
use cadf_json::Memory;
use cadf_linefile::read_model;
use calls::{Call, answer, push_number, refused};
use std::alloc::Global;

/// Reads the bytes as a key file.
fn keys_in(alloc: Global, reading: Reading, bytes: &[u8]) -> Result<KeyList, FileFault> {
    read_model(alloc, &mut reading.source(bytes), reading.limit)
}

/// Answers `ok` with the list's log and the number of its keys.
fn shown(alloc: Global, keys: &KeyList) -> Result<String, Memory> {
    let mut line = answer(alloc, "ok", &[keys.log().as_str()])?;
    push_number(alloc, &mut line, keys.len() as i128)?;
    Ok(line)
}

/// Answers `read_keys`: a reading and a file.
pub(crate) fn read(alloc: Global, call: &Call) -> Result<String, Memory> {
    match keys_in(alloc, Reading::of(call), call.bytes(4)) {
        Ok(keys) => shown(alloc, &keys),
        Err(fault) => refused(alloc, &fault),
    }
}

/// Answers `keys_proof`: a reading, the file of the keys, a log and the lines of facts.
pub(crate) fn proof(alloc: Global, call: &Call) -> Result<String, Memory> {
    let Ok(keys) = keys_in(alloc, Reading::of(call), call.bytes(4)) else {
        return answer(alloc, "no keys", &[]);
    };
    match replica_of(alloc, call, 5) {
        Some(held) => proof_shown(alloc, &Proof::of_keys(alloc, &keys, &held)?),
        None => answer(alloc, "no replica", &[]),
    }
}

/// Answers `verified_keys`: a reading, the files of a seal, of a proof and of the keys, and `present` or `absent`.
pub(crate) fn verified(alloc: Global, call: &Call) -> Result<String, Memory> {
    let reading = Reading::of(call);
    let Ok(seal) = read_in(alloc, reading, call.bytes(4)) else {
        return answer(alloc, "no seal", &[]);
    };
    let Ok(proof) = proof_in(alloc, reading, call.bytes(5)) else {
        return answer(alloc, "no proof", &[]);
    };
    let Ok(keys) = keys_in(alloc, reading, call.bytes(6)) else {
        return answer(alloc, "no keys", &[]);
    };
    match verified_keys(alloc, &seal, &keys, &proof, call.text(7) == "absent") {
        Ok(lines) => told(alloc, call.number(2), &lines),
        Err(fault) => refused(alloc, &fault),
    }
}
