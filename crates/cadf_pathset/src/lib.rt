//! Sets of lists of texts that share the storage of common prefixes.
#![tactic(auto)]

mod chain_tree;
mod compare;
mod copier;
mod cursor;
pub mod laws;
mod lines;
mod nodes;
mod path_set;
mod path_vec;
mod sort;
mod suffix_set;
mod union;

pub use cadf_join::{Join, Memory, Visitor, Walk};
pub use chain_tree::ChainTree;
pub use copier::Carrier;
pub use path_set::{PathSet, PathSetBuilder};
pub use suffix_set::{Section, SuffixSet};
