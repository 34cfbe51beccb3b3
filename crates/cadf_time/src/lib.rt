//! Times: an instant with the offset at which it was written, and its canonical spelling.
#![tactic(auto)]

pub mod laws;
mod time;

pub use time::{Stamp, StampFault};
