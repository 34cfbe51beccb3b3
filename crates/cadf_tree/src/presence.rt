//! Whether a digest is in a set, by the parts of its pruned tree.
ghost use Rattle.std.specs.Prelude.{◌≡◌, None, true};
ghost use Rattle.std.specs.List.{list_any};
ghost use Rattle.cadf_tree.specs.Pruned.{items};
ghost use Rattle.cadf_tree.specs.Presence.{is_leaf, is_past, is_ahead, is_present, is_absent, state, needs, first_part, all_asked, shown};
ghost use Rattle.cadf_tree.specs.Walked.{is_asked};

use crate::growth::{TreeFault, latest, tree_fault};
use crate::parts::{Kind, Part};
use crate::tree::Root;

/// Returns whether the part is the digest.
fn is_leaf(part: &Part, digest: &[u8; 32]) -> bool
    ensures { result ≡ is_leaf part.now digest.now }
{
    match part {
        Part::Leaf(Kind::Both, leaf) => leaf == digest,
        _ => false,
    }
}

/// Returns whether the digest may be next to the part before it: a leaf that is less, or none.
pub fn is_past(before: &Option<Part>, digest: &[u8; 32]) -> bool
    ensures { result ≡ is_past before.now digest.now }
{
    match before {
        None => true,
        Some(Part::Leaf(_, leaf)) => leaf.cmp(digest).is_lt(),
        Some(_) => false,
    }
}

/// Returns whether the digest may be next to the part after it: a leaf that is greater, or none.
pub fn is_ahead(after: &Option<Part>, digest: &[u8; 32]) -> bool
    ensures { result ≡ is_ahead after.now digest.now }
{
    match after {
        None => true,
        Some(Part::Leaf(_, leaf)) => digest.cmp(leaf).is_lt(),
        Some(_) => false,
    }
}

/// Returns whether the digest is a leaf.
fn is_present(parts: &[Part], digest: &[u8; 32]) -> bool
    ensures { result ≡ is_present (items parts.now) digest.now }
{
    for part in parts {
        if is_leaf(part, digest) {
            return true;
        }
    }
    false
}

/// Returns whether the digest would be between two leaves beside each other, or at an end.
fn is_absent(parts: &[Part], digest: &[u8; 32]) -> bool
    ensures { result ≡ is_absent None (items parts.now) digest.now }
{
    let mut before = None;
    for part in parts {
        match part {
            Part::Node => {}
            part => {
                let next = Some(*part);
                if is_past(&before, digest) && is_ahead(&next, digest) {
                    return true;
                }
                before = next;
            }
        }
    }
    is_past(&before, digest)
}

/// Returns whether the digest is in the set, in time that grows with the parts. `None` if they don't show it.
pub fn state(parts: &[Part], digest: &[u8; 32]) -> Option<bool>
    ensures { result ≡ state parts.now digest.now }
{
    if is_present(parts, digest) {
        return Some(true);
    }
    if is_absent(parts, digest) {
        Some(false)
    } else {
        None
    }
}

// ---- what digests need

/// Returns whether the digest needs this leaf, which is between these parts: it is the leaf, or it would be beside it.
fn needs(before: &Option<Part>, part: &Part, after: &Option<Part>, digest: &[u8; 32]) -> bool
    ensures { result ≡ needs before.now part.now after.now digest.now }
{
    match part {
        Part::Leaf(Kind::Both, leaf) => {
            leaf == digest
                || ((is_past(before, digest) && digest.cmp(leaf).is_lt())
                    || (leaf.cmp(digest).is_lt() && is_ahead(after, digest)))
        }
        _ => false,
    }
}

/// Returns whether the digest at that place needs this leaf. False if there is none.
fn is_needed_at(
    before: &Option<Part>,
    part: &Part,
    after: &Option<Part>,
    digests: &[[u8; 32]],
    place: usize,
) -> bool
    ensures { result ≡ true → list_any (needs before.now part.now after.now) digests.now ≡ true }
{
    if place < digests.len() {
        return needs(before, part, after, &digests[place]);
    }
    false
}

/// Returns the place that the part's digest has among digests that rise, or would have.
fn place_of(part: &Part, digests: &[[u8; 32]]) -> usize {
    match part {
        Part::Leaf(_, leaf) => match digests.binary_search(leaf) {
            Ok(place) => place,
            Err(place) => place,
        },
        _ => 0,
    }
}

/// Returns whether some of the digests needs this leaf. If they rise, one that does is found at once.
fn is_needed(before: &Option<Part>, part: &Part, after: &Option<Part>, digests: &[[u8; 32]]) -> bool
    ensures { result ≡ list_any (needs before.now part.now after.now) digests.now }
{
    let place = place_of(part, digests);
    if is_needed_at(before, part, after, digests, place)
        || is_needed_at(before, part, after, digests, place.saturating_sub(1))
    {
        return true;
    }
    for digest in digests {
        if needs(before, part, after, digest) {
            return true;
        }
    }
    false
}

/// Returns the first of these parts that is no node.
fn first_part(parts: &[Part]) -> Option<Part>
    ensures { result ≡ first_part (items parts.now) }
{
    for part in parts {
        match part {
            Part::Node => {}
            part => return Some(*part),
        }
    }
    None
}

/// Returns whether the part, with `rest` after it, is no leaf, or one that some of the digests needs.
fn is_asked(before: &Option<Part>, part: &Part, rest: &[Part], digests: &[[u8; 32]]) -> bool
    ensures { result ≡ is_asked before.now part.now rest.now digests.now }
{
    match part {
        Part::Leaf(_, _) => {
            let after = first_part(rest);
            is_needed(before, part, &after, digests)
        }
        _ => true,
    }
}

/// Returns whether each leaf is one that some of the digests needs.
#[tactic(auto, using(crate::proofs::Walking::asked_end))]
fn all_asked(parts: &[Part], digests: &[[u8; 32]]) -> bool
    ensures { result ≡ all_asked None (items parts.now) digests.now }
{
    let mut before = None;
    for index in 0..parts.len() {
        let part = &parts[index];
        if !is_asked(&before, part, &parts[index + 1..], digests) {
            return false;
        }
        before = latest(before, part);
    }
    true
}

/// Judges whether the parts are a pruned tree of the set with this root that shows nothing but what the digests need. `state`
/// then says of each of them whether it is in the set. Returns the first fault. If the digests rise, at most one leaf is
/// compared with all of them.
pub fn shown(root: &Root, parts: &[Part], digests: &[[u8; 32]]) -> Option<TreeFault>
    ensures { result ≡ shown root.now parts.now digests.now }
{
    if let Some(fault) = tree_fault(root, root, parts) {
        return Some(fault);
    }
    if all_asked(parts, digests) {
        None
    } else {
        Some(TreeFault::NotNeeded)
    }
}
