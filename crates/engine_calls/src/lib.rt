//! Calls of the engines of the command over memory.
//!
//! A reader is three words: its bytes, the most bytes of a read, and the number of the read that fails, 0 for none. A
//! writer is three words too: the most bytes that a write takes, what it does at one write (`never`, `refuses` or
//! `takes-nothing`), and the number of that write.
#![tactic(auto)]

mod answers;
mod engines;
mod loads;
mod sweeps;
mod words;

use calls::Call;
use std::alloc::{AllocError as Memory, Global};

/// Makes the call, and returns the line of its answer. An `Err` is a failed allocation.
pub fn answered(alloc: Global, call: &Call) -> Result<String, Memory> {
    sweeps::answered(alloc, call)
}
