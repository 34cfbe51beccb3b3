//! Split files: a replica's atoms in parts by windows of time, each part as a replica file.
#![tactic(auto)]

pub mod laws;
mod places;
mod unit;
mod write;

pub use unit::Unit;
pub use write::write_split;
