//! The parts of a pruned tree of two sets in preorder, and what is computed of the tree.
ghost use Rattle.std.specs.Prelude.{◌≡◌, ◌<◌, ◌^◌, option_map};
ghost use Rattle.cadf_tree.specs.Pruned.{joined, is_earlier, is_later, is_of, number, summaries, read};

use crate::tree::{hash_of_leaf, hash_of_node};

/// In which of two sets a digest is.
#[derive(Clone, Copy, Debug, PartialEq, Eq)]
pub enum Kind {
    /// In both.
    Both,
    /// In the later one alone.
    Added,
    /// In the earlier one alone.
    Gone,
}

/// A part of the pruned tree of two sets, in preorder.
#[derive(Clone, Copy, Debug, PartialEq, Eq)]
pub enum Part {
    /// A node, before its two halves.
    Node,
    /// The hash of a subtree that is the same in both trees, and of which no leaf is shown.
    Hash([u8; 32]),
    /// A leaf.
    Leaf(Kind, [u8; 32]),
}

/// What is computed of a pruned tree: its hash with the leaves of the earlier set alone, and with those of the later one
/// alone, if it has such leaves; whether it is a hash; and whether some node has two hashes as halves.
#[derive(Clone, Copy, Debug)]
pub(crate) struct Summary {
    pub earlier: Option<[u8; 32]>,
    pub later: Option<[u8; 32]>,
    pub hidden: bool,
    pub spare: bool,
}

/// Returns whether a digest of this kind is in the earlier set.
fn is_earlier(kind: &Kind) -> bool
    ensures { result ≡ is_earlier kind.now }
{
    match kind {
        Kind::Both | Kind::Gone => true,
        Kind::Added => false,
    }
}

/// Returns whether a digest of this kind is in the later set.
fn is_later(kind: &Kind) -> bool
    ensures { result ≡ is_later kind.now }
{
    match kind {
        Kind::Both | Kind::Added => true,
        Kind::Gone => false,
    }
}

/// Returns the hash of a node of which a half may be missing.
fn joined(left: Option<[u8; 32]>, right: Option<[u8; 32]>) -> Option<[u8; 32]>
    ensures { result ≡ joined left right }
{
    match (left, right) {
        (None, right) => right,
        (Some(left), None) => Some(left),
        (Some(left), Some(right)) => Some(hash_of_node(&left, &right)),
    }
}

/// Reads the first tree, no deeper than `room`. Returns what is computed of it, and the parts that are left. `None` if
/// there is no such tree.
pub(crate) fn summary_of(parts: &[Part], room: u32) -> Option<(Summary, &[Part])>
    ensures { option_map (λ r. (r.0, r.1.now)) result ≡ summaries (read room parts.now) }
{
    if room == 0 {
        return None;
    }
    let (part, rest) = parts.split_first()?;
    match part {
        Part::Hash(hash) => {
            let (earlier, later) = (Some(*hash), Some(*hash));
            Some((
                Summary {
                    earlier,
                    later,
                    hidden: true,
                    spare: false,
                },
                rest,
            ))
        }
        Part::Leaf(kind, digest) => {
            let hash = hash_of_leaf(digest);
            let earlier = if is_earlier(kind) { Some(hash) } else { None };
            let later = if is_later(kind) { Some(hash) } else { None };
            Some((
                Summary {
                    earlier,
                    later,
                    hidden: false,
                    spare: false,
                },
                rest,
            ))
        }
        Part::Node => {
            let (left, rest) = summary_of(rest, room - 1)?;
            let (right, rest) = summary_of(rest, room - 1)?;
            let earlier = joined(left.earlier, right.earlier);
            let later = joined(left.later, right.later);
            let spare = (left.hidden && right.hidden) || (left.spare || right.spare);
            Some((
                Summary {
                    earlier,
                    later,
                    hidden: false,
                    spare,
                },
                rest,
            ))
        }
    }
}

/// Returns whether the part is a leaf of that kind; with `None`, whether it is a hash.
fn is_of(kind: &Option<Kind>, part: &Part) -> bool
    ensures { result ≡ is_of kind.now part.now }
{
    match (kind, part) {
        (None, Part::Hash(_)) => true,
        (Some(Kind::Both), Part::Leaf(Kind::Both, _)) => true,
        (Some(Kind::Added), Part::Leaf(Kind::Added, _)) => true,
        (Some(Kind::Gone), Part::Leaf(Kind::Gone, _)) => true,
        _ => false,
    }
}

/// Counts the leaves of that kind; with `None` the hashes.
pub(crate) fn number_of(kind: Option<Kind>, parts: &[Part]) -> u64
    ensures number { result ≡ number kind parts.now }
    ensures most { result < 2 ^ 63 }
{
    let mut number = 0;
    for part in parts {
        if is_of(&kind, part) {
            number += 1;
        }
    }
    number
}
