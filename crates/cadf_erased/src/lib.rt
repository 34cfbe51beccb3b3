//! What of a replica is left by a list of what was erased of its log.
#![tactic(auto)]

pub mod laws;
mod left;

pub use cadf_json::{OutFault, Sink};
pub use left::write_left;
