//! Canonical texts that are scanned and not parsed: where an object's members are, and the instant of an event's body.
#![tactic(auto)]

mod instant;
mod scan;

pub use instant::instant_in;
pub use scan::{behind_first, below, first_item_length, skip_comma};
