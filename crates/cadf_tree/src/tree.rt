//! The tree of a set of digests, and its root, in one pass.
ghost use Rattle.std.specs.Prelude.{◌≡◌, ◌≤◌, ◌<◌, length};
ghost use Rattle.cadf_tree.specs.Tree.{IsSet, bit, leaf_hash, node_hash, root, root_hash, tree_hash, tree_of};
ghost use Rattle.cadf_tree.specs.OnePass.{parting, extended, Rises};

use sha2::{Digest, Sha256};

/// The root of a set: how many digests it has, and the hash of this number and of the tree.
#[derive(Clone, Copy, Debug, PartialEq, Eq)]
pub struct Root {
    pub count: u64,
    pub hash: [u8; 32],
}

/// Hashes a leaf.
pub(crate) fn hash_of_leaf(leaf: &[u8; 32]) -> [u8; 32]
    ensures { result ≡ leaf_hash leaf.now }
{
    let mut hasher = Sha256::new();
    hasher.update(&[0]);
    hasher.update(leaf.as_slice());
    hasher.finalize()
}

/// Hashes a node from the hashes of its halves.
pub(crate) fn hash_of_node(left: &[u8; 32], right: &[u8; 32]) -> [u8; 32]
    ensures { result ≡ node_hash left.now right.now }
{
    let mut hasher = Sha256::new();
    hasher.update(&[1]);
    hasher.update(left.as_slice());
    hasher.update(right.as_slice());
    hasher.finalize()
}

/// Hashes the number of a tree's leaves and its hash.
pub(crate) fn hash_of_root(count: u64, hash: &[u8; 32]) -> [u8; 32]
    ensures { result ≡ root_hash count hash.now }
{
    let mut hasher = Sha256::new();
    hasher.update(&[2]);
    hasher.update(&count.to_be_bytes());
    hasher.update(hash.as_slice());
    hasher.finalize()
}

/// Returns a bit of a digest, from the highest of its first byte.
#[tactic(auto, unfolding(crate::specs::Tree::bit))]
pub(crate) fn bit(digest: &[u8; 32], place: usize) -> bool
    requires { place < 256 }
    ensures { result ≡ bit place digest.now }
{
    (digest[place / 8] >> (7 - place % 8)) % 2 == 1
}

/// Returns the first bit at which two digests differ, or 256.
#[tactic(auto, using(crate::proofs::Steps::parting_next, crate::proofs::Steps::parting_here, crate::proofs::Steps::parting_none), unfolding(crate::specs::OnePass::parting))]
pub(crate) fn parting(left: &[u8; 32], right: &[u8; 32]) -> usize
    ensures place { result ≡ parting left.now right.now }
    ensures most { result ≤ 256 }
{
    for place in 0..256 {
        if bit(left, place) != bit(right, place) {
            return place;
        }
    }
    256
}

/// Extends a part that begins with `first` and has the hash `hash` so far by those of `rest` that share `shared` bits
/// with `first`. Returns its hash, and the leaves that are left.
fn extended<'a>(
    first: &[u8; 32],
    hash: [u8; 32],
    rest: &'a [[u8; 32]],
    shared: usize,
) -> ([u8; 32], &'a [[u8; 32]])
    ensures hash { result.0 ≡ (extended (length rest.now) first.now hash rest.now shared).0 }
    ensures rest { result.1.now ≡ (extended (length rest.now) first.now hash rest.now shared).1 }
    ensures fewer { length result.1.now ≤ length rest.now }
{
    let Some((next, others)) = rest.split_first() else {
        return (hash, rest);
    };
    let place = parting(first, next);
    if place < shared {
        return (hash, rest);
    }
    let (right, others) = extended(next, hash_of_leaf(next), others, place + 1);
    extended(first, hash_of_node(&hash, &right), others, shared)
}

/// Computes the hash of the tree of a set of digests.
pub(crate) fn hash_of_tree(digests: &[[u8; 32]]) -> [u8; 32]
    requires { Rises digests.now }
    ensures { result ≡ tree_hash (tree_of digests.now) }
{
    let Some((first, rest)) = digests.split_first() else {
        return Sha256::digest(b"");
    };
    extended(first, hash_of_leaf(first), rest, 0).0
}

/// Computes the root of a set of digests, ascending. In memory it has one step a level of the tree.
pub fn root_of(digests: &[[u8; 32]]) -> Root
    requires { IsSet digests.now }
    ensures { result ≡ root digests.now }
{
    let count = digests.len() as u64;
    Root {
        count,
        hash: hash_of_root(count, &hash_of_tree(digests)),
    }
}
