//! Calls of replica, inventory, seal, proof and sketch files, and of the two texts.
#![tactic(auto)]

mod faults;
mod feeds;
mod inventories;
mod keys;
mod reads;
mod replicas;
mod seals;
mod sketches;
mod streams;
mod sweeps;
mod texts;
mod writes;

use cadf_json::Memory;
use calls::Call;
use std::alloc::Global;

/// Makes the call, and returns the line of its answer. An `Err` is a failed allocation.
pub fn answered(alloc: Global, call: &Call) -> Result<String, Memory> {
    match call.name() {
        "read" => reads::read(alloc, call),
        "each_failing_read" => sweeps::each_failing_read(alloc, call),
        "each_prefix" => sweeps::each_prefix(alloc, call),
        "each_bit" => sweeps::each_bit(alloc, call),
        "write" => writes::write(alloc, call),
        "feed" => feeds::feed(alloc, call),
        "read_rest" => feeds::read_rest_of(alloc, call),
        "read_inventory" => inventories::read(alloc, call),
        "write_inventory" => inventories::write(alloc, call),
        "inventory_digest" => inventories::digest(alloc, call),
        "read_seal" => seals::read(alloc, call),
        "write_seal" => seals::write(alloc, call),
        "seal" => seals::seal(alloc, call),
        "root_of" => seals::root(alloc, call),
        "proof" => seals::proof(alloc, call),
        "write_proof" => seals::write_proof_of(alloc, call),
        "read_proof" => seals::read_proof_of(alloc, call),
        "verified" => seals::verified_of(alloc, call),
        "read_keys" => keys::read(alloc, call),
        "keys_proof" => keys::proof(alloc, call),
        "verified_keys" => keys::verified(alloc, call),
        "write_log" | "write_conflicts" => texts::write(alloc, call),
        "read_sketch" => sketches::read(alloc, call),
        "write_sketch" => sketches::write(alloc, call),
        "read_by" => sketches::read_by(alloc, call),
        "missing_by_sketch" => sketches::missing(alloc, call),
        "fault_text" => faults::fault_text(alloc, call),
        _ => calls::answer(alloc, "no such call", &[]),
    }
}
