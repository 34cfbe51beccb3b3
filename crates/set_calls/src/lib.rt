//! Calls of sets of lists of texts. A list is written as the JSON list of its texts, and a set as the JSON list of its
//! lists.
#![tactic(auto)]

mod example;
mod keeping;
mod kinds;
mod lists;
mod maps;
mod paths;
mod texts;
mod told;
mod trees;
mod values;

use cadf_join::laws::{
    longest_is_a_longest_chain, map_membership, membership_laws, order_determines_set, union_laws,
};
use cadf_join::{Memory, TextSet};
use calls::{Call, answer};
use std::alloc::Global;

/// Makes the call, and returns the line of its answer. An `Err` is a failed allocation.
pub fn answered(alloc: Global, call: &Call) -> Result<String, Memory> {
    let (family, name) = call.name().split_once('.').unwrap_or_default();
    match family {
        "value" => values::answered(alloc, name, call),
        "texts" => texts::answered(alloc, name, call),
        "map" => maps::answered(alloc, name, call),
        "tree" => trees::answered(alloc, name, call),
        "paths" => paths::answered(alloc, name, call),
        "prefix" => lists::answered(alloc, call),
        "example" => example::answered(alloc),
        _ => answer(alloc, "no such call", &[]),
    }
}

/// Calls the laws of sets.
pub fn laws() {
    union_laws();
    order_determines_set();
    longest_is_a_longest_chain();
    membership_laws();
    map_membership::<TextSet>();
}
