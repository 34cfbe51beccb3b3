//! The parts of the pruned tree of a set's digests.
ghost use Rattle.std.specs.Prelude.{◌≡◌, ◌<◌, ◌≤◌, ◌++◌, length, IfOk, OnOk};
ghost use Rattle.cadf_tree.specs.Tree.{IsSet, tree_of, zeros};
ghost use Rattle.cadf_tree.specs.OnePass.{Rises};
ghost use Rattle.cadf_tree.specs.Halved.{IsHalved};
ghost use Rattle.cadf_tree.specs.Made.{any_shown, leaf_part, made_parts};

use crate::parts::{Kind, Part};
use crate::tree::{bit, hash_of_leaf, hash_of_tree, parting};
use std::alloc::{AllocError, Global};

/// Returns whether some leaf is shown.
fn any_shown(kinds: &[Option<Kind>]) -> bool
    ensures { result ≡ any_shown kinds.now }
{
    for kind in kinds {
        if kind.is_some() {
            return true;
        }
    }
    false
}

/// Returns the part of a tree of one leaf, which is shown if it has a kind.
fn leaf_part(digest: &[u8; 32], kind: &Option<Kind>) -> Part
    ensures { result ≡ leaf_part digest.now kind.now }
{
    match kind {
        None => Part::Hash(hash_of_leaf(digest)),
        Some(kind) => Part::Leaf(*kind, *digest),
    }
}

/// Counts the digests in which this bit is 0.
fn number_of_zeros(digests: &[[u8; 32]], place: usize) -> usize
    requires { place < 256 }
    ensures number { result ≡ length (zeros place digests.now) }
{
    let mut number = 0;
    for digest in digests {
        if !bit(digest, place) {
            number += 1;
        }
    }
    number
}

/// Returns how many of the digests are in the left half of their tree.
fn left_half(digests: &[[u8; 32]]) -> usize
    requires rising { Rises digests.now }
    requires several { 2 ≤ length digests.now }
    ensures { IsHalved digests.now result }
{
    let first = &digests[0];
    let last = &digests[digests.len() - 1];
    number_of_zeros(digests, parting(first, last))
}

/// Appends the parts of the pruned tree of the digests, of which those that have a kind are shown. `Err` if an allocation
/// fails.
fn push_parts(
    parts: &mut Vec<Part>,
    digests: &[[u8; 32]],
    kinds: &[Option<Kind>],
) -> Result<(), AllocError>
    requires rising { Rises digests.now }
    requires same { length kinds.now ≡ length digests.now }
    ensures { OnOk result (parts.new.items ≡ parts.old.items ++ made_parts (tree_of digests.now) kinds.now) }
{
    if digests.is_empty() {
        return Ok(());
    }
    if digests.len() == 1 {
        parts.push(leaf_part(&digests[0], &kinds[0]))?;
        return Ok(());
    }
    if !any_shown(kinds) {
        parts.push(Part::Hash(hash_of_tree(digests)))?;
        return Ok(());
    }
    let middle = left_half(digests);
    let (low, high) = digests.split_at(middle);
    let (low_kinds, high_kinds) = kinds.split_at(middle);
    parts.push(Part::Node)?;
    push_parts(parts, low, low_kinds)?;
    push_parts(parts, high, high_kinds)
}

/// Makes the parts of the pruned tree of a set, of which the digests that have a kind are shown as leaves of it. Each subtree
/// without such a leaf is a hash; its digests are in both sets. The time is that of `root_of` and of a look at each digest on
/// each level. `Err` if an allocation fails.
pub fn parts_of(
    alloc: Global,
    digests: &[[u8; 32]],
    kinds: &[Option<Kind>],
) -> Result<Vec<Part>, AllocError>
    requires digests { IsSet digests.now }
    requires same { length kinds.now ≡ length digests.now }
    ensures { IfOk result (λ parts. parts.items ≡ made_parts (tree_of digests.now) kinds.now) }
{
    let mut parts = Vec::new(alloc);
    push_parts(&mut parts, digests, kinds)?;
    Ok(parts)
}
