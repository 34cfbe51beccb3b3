//! The command line: the words that `cadf` accepts, the request that they are parsed to, and the texts printed for
//! them.
//!
//! Two tables define the commands and their words. The crate `clap` parses the words and makes all texts.
#![tactic(auto)]

mod reply;
mod request;
mod table;

pub use crate::reply::{Message, Reply};
pub use crate::request::{Request, parse};
