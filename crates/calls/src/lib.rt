//! Lines of calls and of their answers: fields between tabs, of which each is text; and sources and sinks in memory.
//!
//! In a field `\\` is a backslash, `\t` a tab, `\n` a line feed, `\r` a carriage return, and `\xHH` the byte with
//! these two hexadecimal digits: any other byte below 0x20, 0x7f, and each byte that is no part of UTF-8.
#![tactic(auto)]

mod call;
mod fields;
mod memory;

pub use crate::call::Call;
pub use crate::fields::{
    answer, is_refused, push, push_answer, push_bytes, push_number, push_truth, refused,
};
pub use crate::memory::{MemorySink, MemorySource};
