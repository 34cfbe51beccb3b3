//! Calls of JSON values, of sources and sinks, and of times.
#![tactic(auto)]

mod apart;
mod looks;
mod quotes;
mod streams;
mod times;
mod writers;

use calls::Call;
use std::alloc::{AllocError as Memory, Global};

/// Makes the call, and returns the line of its answer. An `Err` is a failed allocation.
pub fn answered(alloc: Global, call: &Call) -> Result<String, Memory> {
    match call.name() {
        "value" => looks::value(alloc, call),
        "reused" => looks::reused(alloc, call),
        "canonical" => looks::canonical(alloc, call.text(1)),
        "quoted" => quotes::quoted(alloc, call.text(1)),
        "apart" => apart::read(alloc, call.text(1).as_bytes()),
        "read_to_limit" => streams::whole(alloc, call),
        "read_rest" => streams::rest(alloc, call),
        "borrow_next" => streams::borrowed(alloc, call),
        "read_by_std" => streams::by_std(alloc, call),
        "write_all" => writers::whole(alloc, call),
        "write_by_std" => writers::by_std(alloc, call),
        "time" => times::read(alloc, call.text(1)),
        "repeated" => repeated(alloc, call),
        _ => calls::answer(alloc, "no such call", &[]),
    }
}

/// Makes the call of the first word on a text of which a part is repeated.
fn repeated(alloc: Global, call: &Call) -> Result<String, Memory> {
    let bytes = call.repeated(alloc)?;
    match call.text(1) {
        "value" => looks::value_kind(alloc, bytes.as_slice()),
        "apart" => apart::read(alloc, bytes.as_slice()),
        _ => calls::answer(alloc, "no such call", &[]),
    }
}

/// Calls the laws of values, of their canonical texts and of times.
pub fn laws() {
    cadf_json::bytes_spell_values();
    cadf_json::text_is_injective();
    cadf_json::text_spells_its_value();
    cadf_json::text_is_one_line();
    cadf_time::laws::time_fields_are_unique();
    cadf_time::laws::time_is_unique();
    cadf_time::laws::canonical_spells();
    cadf_time::laws::spelling_is_injective();
}
