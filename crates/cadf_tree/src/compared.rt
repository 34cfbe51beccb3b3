//! The parts that show how one set came of another one.
ghost use Rattle.std.specs.Prelude.{◌≡◌, ◌++◌, ◌∷◌, if◌then◌else◌, false, List, ℕ, [], IfOk, OnOk};
ghost use Rattle.cadf_tree.specs.Tree.{IsSet};
ghost use Rattle.cadf_tree.specs.GrowthMade.{all_of, before, change_shown, compared, digests_of, from, growth_parts, is_changed, kinds_of, past, starts_changed, starts_with};
ghost use Rattle.cadf_tree.specs.declared.parts.Kind.TheVariants.{Both, Added, Gone};

use crate::parts::{Kind, Part};
use crate::pruning::parts_of;
use std::alloc::{AllocError, Global};

// ---- both sets

/// Appends the digests before the first that isn't below `digest`, as added. Returns the others. `Err` if an allocation fails.
fn push_before<'a>(
    all: &mut Vec<(Kind, [u8; 32])>,
    digest: &[u8; 32],
    later: &'a [[u8; 32]],
) -> Result<&'a [[u8; 32]], AllocError>
    ensures all { OnOk result (all.new.items ≡ all.old.items ++ all_of Added (before digest.now later.now)) }
    ensures rest { IfOk result (λ rest. rest.now ≡ from digest.now later.now) }
{
    for index in 0..later.len() {
        if !later[index].cmp(digest).is_lt() {
            return Ok(&later[index..]);
        }
        all.push((Kind::Added, later[index]))?;
    }
    Ok(&later[later.len()..])
}

/// Appends the digests, as added. `Err` if an allocation fails.
fn push_added(all: &mut Vec<(Kind, [u8; 32])>, later: &[[u8; 32]]) -> Result<(), AllocError>
    ensures { OnOk result (all.new.items ≡ all.old.items ++ all_of Added later.now) }
{
    for digest in later {
        all.push((Kind::Added, *digest))?;
    }
    Ok(())
}

/// Returns whether the digest is the first of these.
fn starts_with(digest: &[u8; 32], later: &[[u8; 32]]) -> bool
    ensures { result ≡ starts_with digest.now later.now }
{
    match later {
        [] => false,
        [first, ..] => first == digest,
    }
}

/// Appends a digest of the earlier set: as one of both if it is the first of the later ones. Returns the later ones without it.
/// `Err` if an allocation fails.
fn push_earlier<'a>(
    all: &mut Vec<(Kind, [u8; 32])>,
    digest: &[u8; 32],
    later: &'a [[u8; 32]],
) -> Result<&'a [[u8; 32]], AllocError>
    ensures all { OnOk result (all.new.items ≡ all.old.items ++ (if starts_with digest.now later.now then Both else Gone, digest.now) ∷ []) }
    ensures rest { IfOk result (λ rest. rest.now ≡ past digest.now later.now) }
{
    if starts_with(digest, later) {
        all.push((Kind::Both, *digest))?;
        Ok(&later[1..])
    } else {
        all.push((Kind::Gone, *digest))?;
        Ok(later)
    }
}

/// Makes the list of the digests of two sets, rising, each with its kind. `Err` if an allocation fails.
fn compare_sets(
    alloc: Global,
    earlier: &[[u8; 32]],
    later: &[[u8; 32]],
) -> Result<Vec<(Kind, [u8; 32])>, AllocError>
    ensures { IfOk result (λ all. all.items ≡ compared earlier.now later.now) }
{
    let mut all = Vec::new(alloc);
    let mut rest = later;
    for digest in earlier {
        rest = push_before(&mut all, digest, rest)?;
        rest = push_earlier(&mut all, digest, rest)?;
    }
    push_added(&mut all, rest)?;
    Ok(all)
}

/// Makes the list of the digests. `Err` if an allocation fails.
fn digests_of(alloc: Global, all: &[(Kind, [u8; 32])]) -> Result<Vec<[u8; 32]>, AllocError>
    ensures { IfOk result (λ digests. digests.items ≡ digests_of all.now) }
{
    let mut digests = Vec::new(alloc);
    for (_, digest) in all {
        digests.push(*digest)?;
    }
    Ok(digests)
}

// ---- what is shown

/// Returns whether a digest of this kind is in one of the sets alone.
fn is_changed(kind: &Kind) -> bool
    ensures { result ≡ is_changed kind.now }
{
    match kind {
        Kind::Both => false,
        Kind::Added | Kind::Gone => true,
    }
}

/// Returns whether the first digest is in one of the sets alone.
fn starts_changed(all: &[(Kind, [u8; 32])]) -> bool
    ensures { result ≡ starts_changed (kinds_of all.now) }
{
    match all {
        [] => false,
        [(kind, _), ..] => is_changed(kind),
    }
}

/// Makes the kinds of the digests that are shown: they changed, or are beside one that changed. `Err` if an allocation fails.
fn kinds_of_changed(
    alloc: Global,
    all: &[(Kind, [u8; 32])],
) -> Result<Vec<Option<Kind>>, AllocError>
    ensures { IfOk result (λ kinds. kinds.items ≡ change_shown false (kinds_of all.now)) }
{
    let mut kinds = Vec::new(alloc);
    let mut before = false;
    for index in 0..all.len() {
        let kind = all[index].0;
        let changed = is_changed(&kind);
        let beside = before || starts_changed(&all[index + 1..]);
        kinds.push((changed || beside).then_some(kind))?;
        before = changed;
    }
    Ok(kinds)
}

/// Makes the parts of the tree of both sets that show each digest that was added or is gone, and the digests beside these. Both
/// lists rise, and are gone through once. `grew` accepts the parts under the roots of both sets. `Err` if an allocation fails.
pub fn growth_of(
    alloc: Global,
    earlier: &[[u8; 32]],
    later: &[[u8; 32]],
) -> Result<Vec<Part>, AllocError>
    requires earlier { IsSet earlier.now }
    requires later { IsSet later.now }
    ensures { IfOk result (λ parts. parts.items ≡ growth_parts earlier.now later.now) }
{
    let all = compare_sets(alloc, earlier, later)?;
    let digests = digests_of(alloc, &all)?;
    let kinds = kinds_of_changed(alloc, &all)?;
    parts_of(alloc, &digests, &kinds)
}
