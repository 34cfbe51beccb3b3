//! The tree of a set of digests: its root, and proofs of what is in the set and of how it grew.
#![tactic(auto)]

mod asked;
mod compared;
mod growth;
mod laws;
mod parts;
mod presence;
mod pruning;
mod tree;

pub use asked::presence_of;
pub use compared::growth_of;
pub use growth::{Growth, TreeFault, grew};
pub use laws::{
    growth_is_complete, growth_is_sound, later_root_vouches, made_tree_has_both_roots,
    made_tree_is_short, presence_is_complete, presence_is_sound, tree_has_the_set,
};
pub use parts::{Kind, Part};
pub use presence::{is_ahead, is_past, shown, state};
pub use pruning::parts_of;
pub use tree::{Root, root_of};
