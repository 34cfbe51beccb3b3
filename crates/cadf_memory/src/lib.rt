//! Bytes in memory as sources of a request, and a buffer for what is written.
#![tactic(auto)]

mod buffer;
mod ghost_bytes;
pub mod laws;
mod request;
mod slice_source;

pub use crate::request::over;
pub use crate::slice_source::CadfBytes;
