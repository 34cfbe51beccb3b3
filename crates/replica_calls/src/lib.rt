//! Calls of atoms, replicas, inventories, rulings, scripts and schedules.
//!
//! A replica is written as lines: its log's name, and after it the line of each atom. An inventory is written likewise:
//! its log's name, and after it the digits of each digest.
#![tactic(auto)]

mod atoms;
mod bodies;
mod documents;
mod faults;
mod held;
mod inventories;
mod kept;
mod keys;
mod pairs;
mod paths;
mod replicas;
mod rulings;
mod schedules;
mod spelled;
mod told;

pub use crate::held::laws;
use cadf_json::Memory;
use calls::{Call, answer};
use std::alloc::Global;

/// Makes the call, and returns the line of its answer. An `Err` is a failed allocation.
pub fn answered(alloc: Global, call: &Call) -> Result<String, Memory> {
    let (family, name) = call.name().split_once('.').unwrap_or_default();
    match family {
        "atom" => atoms::answered(alloc, name, call),
        "path" => paths::answered(alloc, name, call),
        "replica" => replicas::answered(alloc, name, call),
        "pair" => pairs::answered(alloc, name, call),
        "key" => keys::answered(alloc, name, call),
        "body" => bodies::answered(alloc, name, call),
        "document" => documents::answered(alloc, name, call),
        "ruling" => rulings::answered(alloc, name, call),
        "inventory" => inventories::answered(alloc, name, call),
        "schedule" => schedules::answered(alloc, name, call),
        "fault" => faults::answered(alloc, name, call),
        _ => answer(alloc, "no such call", &[]),
    }
}
