//! Whether the parts of a pruned tree show how one set came of another one.
ghost use Rattle.std.specs.Prelude.{◌≡◌, false, option_map};
ghost use Rattle.cadf_tree.specs.Pruned.{items, read_all};
ghost use Rattle.cadf_tree.specs.Grown.{may_hide, hidden_leaves, counts_agree, all_beside, is_hash, has_changed, fits, first_changed, all_needed, sides, roots_fault, order_fault, tree_fault, verdict};
ghost use Rattle.cadf_tree.specs.Walked.{follows, latest, whole_sides};

use crate::parts::{Kind, Part, Summary, number_of, summary_of};
use crate::tree::{Root, hash_of_root};
use sha2::{Digest, Sha256};

/// How many digests the later of two sets has beside those of the earlier one, and how many of these it doesn't have.
#[derive(Clone, Copy, Debug, PartialEq, Eq)]
pub struct Growth {
    pub added: u64,
    pub gone: u64,
}

/// Why parts don't show how one set came of another one.
#[derive(Clone, Copy, Debug, PartialEq, Eq)]
pub enum TreeFault {
    /// No trees of so many leaves differ by these parts.
    OtherCount,
    /// The parts are no tree in preorder, or one that is too deep.
    NoTree,
    /// The tree has another root than the earlier set.
    OtherEarlierRoot,
    /// The tree has another root than the later set.
    OtherLaterRoot,
    /// Leaves beside each other don't rise.
    Order,
    /// A leaf that was added or is gone is beside a hash.
    NeighbourHidden,
    /// A leaf of both sets is beside none that changed, or a node has two hashes as halves.
    NotNeeded,
}

/// The hashes of a pruned tree with the leaves of the earlier set alone, and with those of the later one alone; and whether
/// some node has two hashes as halves.
#[derive(Clone, Copy, Debug)]
struct Sides {
    earlier: [u8; 32],
    later: [u8; 32],
    spare: bool,
}

/// Which parts may be beside each other.
#[derive(Clone, Copy, Debug)]
enum Beside {
    /// Leaves that rise.
    Rising,
    /// Anything but a hash and what changed.
    Seen,
}

// ---- counts

/// Returns whether so many leaves may be below so many hashes: at least one below each.
fn may_hide(below: u64, hidden: u64) -> bool
    ensures { result ≡ may_hide below hidden }
{
    if hidden == 0 {
        below == 0
    } else {
        hidden <= below
    }
}

/// Returns how many of `count` leaves are below `hidden` hashes, if `shown` of them are shown. `None` if no tree is so.
fn hidden_leaves(count: u64, shown: u64, hidden: u64) -> Option<u64>
    ensures { result ≡ hidden_leaves count shown hidden }
{
    if count < shown {
        return None;
    }
    let below = count - shown;
    if may_hide(below, hidden) {
        Some(below)
    } else {
        None
    }
}

/// Returns whether by both roots as many leaves are below the hashes.
fn counts_agree(earlier: &Root, later: &Root, parts: &[Part]) -> bool
    ensures { result ≡ counts_agree earlier.now later.now parts.now }
{
    let both = number_of(Some(Kind::Both), parts);
    let added = number_of(Some(Kind::Added), parts);
    let gone = number_of(Some(Kind::Gone), parts);
    let hidden = number_of(None, parts);
    let left = hidden_leaves(earlier.count, both + gone, hidden);
    let right = hidden_leaves(later.count, both + added, hidden);
    match (left, right) {
        (Some(left), Some(right)) => left == right,
        _ => false,
    }
}

// ---- parts beside each other

/// Returns whether the second part may be beside the first one.
fn fits(rule: &Beside, first: &Part, second: &Part) -> bool
    ensures { result ≡ fits rule.now first.now second.now }
{
    match rule {
        Beside::Rising => match (first, second) {
            (Part::Leaf(_, first), Part::Leaf(_, second)) => first.cmp(second).is_lt(),
            _ => true,
        },
        Beside::Seen => !((is_hash(first) && has_changed(second))
            || (has_changed(first) && is_hash(second))),
    }
}

/// Returns whether the part is a hash.
fn is_hash(part: &Part) -> bool
    ensures { result ≡ is_hash part.now }
{
    match part {
        Part::Hash(_) => true,
        Part::Node | Part::Leaf(_, _) => false,
    }
}

/// Returns whether the part is a leaf of one of the sets alone.
fn has_changed(part: &Part) -> bool
    ensures { result ≡ has_changed part.now }
{
    match part {
        Part::Leaf(Kind::Added, _) => true,
        Part::Leaf(Kind::Gone, _) => true,
        _ => false,
    }
}

/// Returns whether the part fits what comes before it, if anything does. A node fits.
fn follows(rule: &Beside, before: &Option<Part>, part: &Part) -> bool
    ensures { result ≡ follows (fits rule.now) before.now part.now }
{
    match (before, part) {
        (None, _) => true,
        (_, Part::Node) => true,
        (Some(before), part) => fits(rule, before, part),
    }
}

/// Returns what comes before the part after this one. A node is left out.
pub(crate) fn latest(before: Option<Part>, part: &Part) -> Option<Part>
    ensures { result ≡ latest before part.now }
{
    match part {
        Part::Node => before,
        _ => Some(*part),
    }
}

/// Returns whether all parts beside each other fit, where nodes are left out.
fn all_fit(rule: &Beside, parts: &[Part]) -> bool
    ensures { result ≡ all_beside (fits rule.now) (items parts.now) }
{
    let mut before = None;
    for part in parts {
        if !follows(rule, &before, part) {
            return false;
        }
        before = latest(before, part);
    }
    true
}

/// Returns whether the first of these parts that is no node changed.
fn next_changed(parts: &[Part]) -> bool
    ensures { result ≡ first_changed (items parts.now) }
{
    for part in parts {
        match part {
            Part::Node => {}
            _ => return has_changed(part),
        }
    }
    false
}

/// Returns whether each leaf of both sets is beside one that changed.
fn all_needed(parts: &[Part]) -> bool
    ensures { result ≡ all_needed false (items parts.now) }
{
    let mut before = false;
    for index in 0..parts.len() {
        match &parts[index] {
            Part::Node => {}
            part => {
                let needed = before || next_changed(&parts[index + 1..]);
                before = has_changed(part);
                if !(is_hash(part) || (before || needed)) {
                    return false;
                }
            }
        }
    }
    true
}

// ---- the verdict

/// Returns the hashes of both sides of the tree that was read. `None` if there is none, or a part is left.
fn whole_sides(read: Option<(Summary, &[Part])>) -> Option<Sides>
    ensures { result ≡ whole_sides (option_map (λ r. (r.0, r.1.now)) read.entry) }
{
    let (summary, rest) = read?;
    if !rest.is_empty() {
        return None;
    }
    let none = Sha256::digest(b"");
    let earlier = summary.earlier.unwrap_or(none);
    let later = summary.later.unwrap_or(none);
    Some(Sides {
        earlier,
        later,
        spare: summary.spare,
    })
}

/// Computes the hashes of both sides of the tree that all parts are. `None` if they are no tree.
fn sides_of(parts: &[Part]) -> Option<Sides>
    ensures { result ≡ option_map sides (read_all parts.now) }
{
    match parts {
        [] => {
            let none = Sha256::digest(b"");
            Some(Sides {
                earlier: none,
                later: none,
                spare: false,
            })
        }
        [_, ..] => whole_sides(summary_of(parts, 257)),
    }
}

/// Returns which root isn't that of its side, if one isn't.
fn roots_fault(earlier: &Root, later: &Root, sides: &Sides) -> Option<TreeFault>
    ensures { result ≡ roots_fault earlier.now later.now sides.now }
{
    if hash_of_root(earlier.count, &sides.earlier) != earlier.hash {
        return Some(TreeFault::OtherEarlierRoot);
    }
    if hash_of_root(later.count, &sides.later) != later.hash {
        return Some(TreeFault::OtherLaterRoot);
    }
    None
}

/// Returns what is wrong with the order of the parts, or that one isn't needed.
fn order_fault(parts: &[Part], spare: bool) -> Option<TreeFault>
    ensures { result ≡ order_fault parts.now spare }
{
    if !all_fit(&Beside::Rising, parts) {
        return Some(TreeFault::Order);
    }
    if !all_fit(&Beside::Seen, parts) {
        return Some(TreeFault::NeighbourHidden);
    }
    if spare {
        Some(TreeFault::NotNeeded)
    } else {
        None
    }
}

/// Returns why the parts are no pruned tree under these roots, if they aren't one.
pub(crate) fn tree_fault(earlier: &Root, later: &Root, parts: &[Part]) -> Option<TreeFault>
    ensures { result ≡ tree_fault earlier.now later.now parts.now }
{
    if !counts_agree(earlier, later, parts) {
        return Some(TreeFault::OtherCount);
    }
    match sides_of(parts) {
        None => Some(TreeFault::NoTree),
        Some(sides) => match roots_fault(earlier, later, &sides) {
            Some(fault) => Some(fault),
            None => order_fault(parts, sides.spare),
        },
    }
}

/// Judges whether the parts show how the later set came of the earlier one, by the roots of both. Returns how many digests
/// were added and how many are gone. `Err`: the first fault.
pub fn grew(earlier: &Root, later: &Root, parts: &[Part]) -> Result<Growth, TreeFault>
    ensures { result ≡ verdict earlier.now later.now parts.now }
{
    if let Some(fault) = tree_fault(earlier, later, parts) {
        return Err(fault);
    }
    if !all_needed(parts) {
        return Err(TreeFault::NotNeeded);
    }
    let added = number_of(Some(Kind::Added), parts);
    let gone = number_of(Some(Kind::Gone), parts);
    Ok(Growth { added, gone })
}
