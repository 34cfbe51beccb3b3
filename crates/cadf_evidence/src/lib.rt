//! Evidence about sealed sets: seals, whose roots are those of two trees of digests, and proofs by these trees.
#![tactic(auto)]

mod fault;
mod growth;
mod key_lines;
mod key_list;
mod laws;
mod made;
mod marked;
mod proof;
mod proof_lines;
mod seal;
mod seal_lines;
mod shown_parts;
mod telling;
mod verify;

pub use fault::ProofFault;
pub use growth::{Digest, GrowthFault, SealedSet, grown};
pub use key_list::KeyList;
pub use laws::{
    equal_seals_are_of_one_set, keys_are_read_back, keys_file_is_injective,
    listed_growth_is_growth, made_proofs_are_told, nothing_goes_unlisted, proof_file_is_injective,
    proof_is_read_back, seal_file_is_injective, seal_is_read_back, told_facts_are_so,
    told_growth_is_so, told_keys_are_so,
};
pub use made::sealed_of;
pub use proof::Proof;
pub use seal::Seal;
pub use telling::FactLines;
pub use verify::{Asked, VerifyFault, verified, verified_keys};
