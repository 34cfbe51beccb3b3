//! Lists of facts and keys of a log, by their digests, and the files of both kinds of such lists.
#![tactic(auto)]

mod kind;
mod laws;
mod lines;
mod listed;

pub use cadf_json::Memory;
pub use kind::{Erased, ListKind, Sealed};
pub use laws::{
    accepted_bytes_are_lists, list_file_is_injective, list_is_read_back, list_over_sets,
};
pub use listed::Listed;
