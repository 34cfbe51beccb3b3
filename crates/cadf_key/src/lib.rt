//! The keys of atoms and their digests, and the digests of a replica's keys.
#![tactic(auto)]

mod collector;
mod key;
mod keys;

pub use key::{KeyDigests, is_ruling, key_length, key_of};
pub use keys::keys_of;
