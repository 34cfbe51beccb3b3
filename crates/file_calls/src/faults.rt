//! The texts of faults.

use cadf_file::{Cause, FileFault};
use cadf_json::Memory;
use calls::{Call, answer};
use std::alloc::Global;

/// Finds the cause of that name.
fn cause_of(name: &str) -> Cause {
    match name {
        "NotUtf8" => Cause::NotUtf8,
        "Json" => Cause::Json,
        "NotCanonical" => Cause::NotCanonical,
        "Shape" => Cause::Shape,
        "Order" => Cause::Order,
        "Ungrounded" => Cause::Ungrounded,
        _ => Cause::Unended,
    }
}

/// Finds the fault that the words name; a line's has a number and a cause.
fn fault_of(call: &Call) -> FileFault {
    match call.text(1) {
        "Version" => FileFault::Version,
        "LogLine" => FileFault::LogLine,
        "Line" => FileFault::Line(call.number(2) as u64, cause_of(call.text(3))),
        "Digest" => FileFault::Digest,
        "Truncated" => FileFault::Truncated,
        "Trailing" => FileFault::Trailing,
        "TooLarge" => FileFault::TooLarge,
        "ReadFault" => FileFault::ReadFault,
        _ => FileFault::Memory,
    }
}

/// Answers `fault_text`: a fault's name, and of a line its number and its cause's name.
pub(crate) fn fault_text(alloc: Global, call: &Call) -> Result<String, Memory> {
    let text = format!(in alloc; "{}", fault_of(call))?;
    answer(alloc, "ok", &[text.as_str()])
}
