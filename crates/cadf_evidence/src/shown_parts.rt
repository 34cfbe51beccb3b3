//! What the parts of a proof show, to be looked up by digests.
ghost use Rattle.std.specs.Prelude.{◌≡◌, ◌&&◌, ◌||◌, true, IfOk, OnOk};
ghost use Rattle.cadf_join.specs.Contents.{Text};
ghost use Rattle.cadf_join.specs.Sets as set;
ghost use Rattle.cadf_tree.specs.Presence.{is_ahead, is_leaf, is_past, state};
ghost use Rattle.cadf_evidence.specs.ShownParts.{AreGaps, AreLeaves, any_gap};

use cadf_event::Name;
use cadf_json::Memory;
use cadf_set::Inventory;
use cadf_tree::{Kind, Part, is_ahead, is_past, state};
use std::alloc::{AllocError, Global};

/// Adds the digest of a leaf.
fn put_leaf(leaves: &mut Inventory, part: &Part) -> Result<(), Memory>
    ensures { OnOk result ((f : Text) → set.contains leaves.new.digests f ≡ (is_leaf part.now f || set.contains leaves.old.digests f)) }
{
    match part {
        Part::Leaf(Kind::Both, digest) => leaves.put(digest),
        _ => Ok(()),
    }
}

/// Makes the inventory of the leaves, under the log. `Memory` if an allocation fails.
pub(crate) fn leaves_of(alloc: Global, log: Name, parts: &[Part]) -> Result<Inventory, Memory>
    ensures { IfOk result (λ leaves. AreLeaves leaves.digests parts.now) }
{
    let mut leaves = Inventory::new(alloc, log);
    for part in parts {
        put_leaf(&mut leaves, part)?;
    }
    Ok(leaves)
}

/// Two parts that are beside each other, neither of them a hash, or one at an end.
#[derive(Clone, Copy, Debug)]
pub(crate) struct Gap {
    before: Option<Part>,
    after: Option<Part>,
}

/// Adds the gap between the parts, unless one of them is a hash: it then shows of no digest that it isn't there.
fn push_gap(
    gaps: &mut Vec<Gap>,
    before: Option<Part>,
    after: Option<Part>,
) -> Result<(), AllocError>
    ensures { OnOk result ((f : Text) → any_gap gaps.new.items f ≡ (any_gap gaps.old.items f || (is_past before f && is_ahead after f))) }
{
    match (before, after) {
        (Some(Part::Hash(_)), _) => Ok(()),
        (_, Some(Part::Hash(_))) => Ok(()),
        _ => {
            gaps.push(Gap { before, after })?;
            Ok(())
        }
    }
}

/// Makes the list of the gaps. `Err` if an allocation fails.
pub(crate) fn gaps_of(alloc: Global, parts: &[Part]) -> Result<Vec<Gap>, AllocError>
    ensures { IfOk result (λ gaps. AreGaps gaps.items parts.now) }
{
    let mut gaps = Vec::new(alloc);
    let mut before = None;
    for part in parts {
        match part {
            Part::Node => {}
            part => {
                let next = Some(*part);
                push_gap(&mut gaps, before, next)?;
                before = next;
            }
        }
    }
    push_gap(&mut gaps, before, None)?;
    Ok(gaps)
}

/// Returns whether the digest is found to be in a gap, by a binary search. It finds each if the leaves rise.
fn is_in_gap(gaps: &[Gap], digest: &[u8; 32]) -> bool
    ensures { result ≡ true → any_gap gaps.now digest.now ≡ true }
{
    let count = gaps.partition_point(|gap| is_past(&gap.before, digest));
    if count == 0 {
        return false;
    }
    let gap = &gaps[count - 1];
    is_past(&gap.before, digest) && is_ahead(&gap.after, digest)
}

/// Returns whether the digest is in the set, by the parts, the inventory of their leaves, and their gaps. `None` if they don't
/// show it. The time grows with the parts only if the leaves don't rise, or nothing is shown.
pub(crate) fn state_of(
    leaves: &Inventory,
    gaps: &[Gap],
    parts: &[Part],
    digest: &[u8; 32],
) -> Option<bool>
    requires leaves { AreLeaves leaves.now.digests parts.now }
    requires gaps { AreGaps gaps.now parts.now }
    ensures { result ≡ state parts.now digest.now }
{
    if leaves.has(digest) {
        return Some(true);
    }
    if is_in_gap(gaps, digest) {
        Some(false)
    } else {
        state(parts, digest)
    }
}
