//! What a site seal has of a part, and what a proof of growth has of it, as a seal and a proof of that part alone.
ghost use Rattle.std.specs.Prelude.{◌≡◌, ◌++◌, ◌∷◌, [], drop, IfOk, OnOk, map};
ghost use Rattle.cadf_evidence.specs.ProofLines.{AreTold as AreToldParts, told_lines};
ghost use Rattle.cadf_evidence.specs.SealFile.{IsRoot, number_line};
ghost use Rattle.cadf_siteseal.specs.GrowthItems.{item_line};
ghost use Rattle.cadf_siteseal.specs.SiteParts.{roots_if, held_by, gone_by, held_roots, gone_roots, last_roots, is_root, is_unchanged, is_window_line, own, is_window_of, has_proof, part_seal, part_proof, HaveRoots, IsPartProof};

use crate::growth_items::{GrowthItem, digest_line, item_line};
use crate::part_name::PartName;
use crate::seal_items::{SealItem, SealedPart};
use crate::site_seal::SiteSeal;
use cadf_event::Name;
use cadf_evidence::{Proof, Seal, proof_file_is_injective, seal_file_is_injective};
use cadf_json::Memory;
use cadf_linefile::ModelFile;
use cadf_tree::{Root, root_of};
use std::alloc::Global;

// ---- the roots of a part

/// Returns the roots of the part, if it has this name.
fn roots_if(name: &PartName, part: &SealedPart) -> Option<(Root, Root)>
    ensures { result ≡ roots_if name.now part.now }
{
    if part.name.as_bytes() == name.as_bytes() {
        Some((part.facts, part.keys))
    } else {
        None
    }
}

/// Returns the roots of the item, if it is the line of a part that has atoms, of this name.
fn held_by(name: &PartName, item: &SealItem) -> Option<(Root, Root)>
    ensures { result ≡ held_by name.now item.now }
{
    match item {
        SealItem::Held(part) => roots_if(name, part),
        _ => None,
    }
}

/// Returns the roots of the item, if it is the line of a window that went, of this name.
fn gone_by(name: &PartName, item: &SealItem) -> Option<(Root, Root)>
    ensures { result ≡ gone_by name.now item.now }
{
    match item {
        SealItem::Gone(part) => roots_if(name, part),
        _ => None,
    }
}

/// Returns the roots that a seal has of the part, if it has atoms. The time grows with the seal.
pub(crate) fn held_roots(name: &PartName, items: &[SealItem]) -> Option<(Root, Root)>
    ensures { result ≡ held_roots name.now items.now }
{
    for item in items {
        if let Some(roots) = held_by(name, item) {
            return Some(roots);
        }
    }
    None
}

/// Returns the roots that a seal has of the part by its line as a window that went. The time grows with the seal.
pub(crate) fn gone_roots(name: &PartName, items: &[SealItem]) -> Option<(Root, Root)>
    ensures { result ≡ gone_roots name.now items.now }
{
    for item in items {
        if let Some(roots) = gone_by(name, item) {
            return Some(roots);
        }
    }
    None
}

/// Returns the roots of the part, or of what it had when it went.
pub(crate) fn last_roots(name: &PartName, items: &[SealItem]) -> Option<(Root, Root)>
    ensures { result ≡ last_roots name.now items.now }
{
    match held_roots(name, items) {
        Some(roots) => Some(roots),
        None => gone_roots(name, items),
    }
}

/// Returns whether two roots are one.
fn is_root(one: &Root, other: &Root) -> bool
    ensures { result ≡ is_root one.now other.now }
{
    one.count == other.count && one.hash == other.hash
}

/// Returns whether the later roots are the earlier ones, if there are earlier ones.
pub(crate) fn is_unchanged(earlier: Option<(Root, Root)>, later: Option<(Root, Root)>) -> bool
    ensures { result ≡ is_unchanged earlier later }
{
    match (earlier, later) {
        (None, _) => true,
        (Some(_), None) => false,
        (Some((facts, keys)), Some((later_facts, later_keys))) => {
            is_root(&later_facts, &facts) && is_root(&later_keys, &keys)
        }
    }
}

// ---- the items of a proof

/// Returns whether the item is the line of a part.
fn is_window_line(item: &GrowthItem) -> bool
    ensures { result ≡ is_window_line item.now }
{
    match item {
        GrowthItem::Window(_) => true,
        _ => false,
    }
}

/// Returns whether the item is the line of the part of this name.
fn is_window_of(name: &PartName, item: &GrowthItem) -> bool
    ensures { result ≡ is_window_of name.now item.now }
{
    match item {
        GrowthItem::Window(window) => window.as_bytes() == name.as_bytes(),
        _ => false,
    }
}

/// Returns whether the proof of growth has the part of this name. The time grows with it.
pub(crate) fn has_proof(name: &PartName, items: &[GrowthItem]) -> bool
    ensures { result ≡ has_proof name.now items.now }
{
    for item in items {
        if is_window_of(name, item) {
            return true;
        }
    }
    false
}

// ---- a seal and a proof of the part alone

/// Decodes a further line of a file. `Memory` if an allocation fails, or it may not follow.
fn put<M: ModelFile>(alloc: Global, told: &mut M::Told, line: &[u8]) -> Result<(), Memory>
    requires { M.sound told.old }
    ensures { OnOk result ((M.told_lines told.new ≡ M.told_lines told.old ++ line.now ∷ []) × M.sound told.new) }
{
    match M::put_line(alloc, told, line) {
        Ok(()) => Ok(()),
        Err(_) => Err(Memory),
    }
}

/// Makes the line of a number.
fn number_line(alloc: Global, mark: &[u8], number: u64) -> Result<Vec<u8>, Memory>
    ensures { IfOk result (λ line. line.items ≡ number_line mark.now number) }
{
    let mut line = Vec::from_slice(alloc, mark)?;
    line.extend_from_slice(itoa::Buffer::new().format(number).as_bytes())?;
    Ok(line)
}

/// Makes the seal of a log with these roots. `Memory` if an allocation fails.
fn seal_with(alloc: Global, log: &Name, facts: &Root, keys: &Root) -> Result<Seal, Memory>
    requires facts { IsRoot facts.now }
    requires keys { IsRoot keys.now }
    ensures { IfOk result (λ s. s ≡ record { log = log.now; facts = facts.now; keys = keys.now }) }
{
    log.type_invariant();
    seal_file_is_injective();
    let mut told = Seal::nothing();
    let count = number_line(alloc, b"N ", facts.count)?;
    put::<Seal>(alloc, &mut told, count.as_slice())?;
    let hash = digest_line(alloc, b"R ", &facts.hash)?;
    put::<Seal>(alloc, &mut told, hash.as_slice())?;
    let key_count = number_line(alloc, b"M ", keys.count)?;
    put::<Seal>(alloc, &mut told, key_count.as_slice())?;
    let key_hash = digest_line(alloc, b"S ", &keys.hash)?;
    put::<Seal>(alloc, &mut told, key_hash.as_slice())?;
    Ok(Seal::of_lines(log.copy(alloc)?, told))
}

/// Makes the seal of a part with these roots; without any, that of no atoms. `Memory` if an allocation fails.
pub(crate) fn part_seal(
    alloc: Global,
    log: &Name,
    roots: Option<(Root, Root)>,
) -> Result<Seal, Memory>
    requires { HaveRoots roots }
    ensures { IfOk result (λ s. s ≡ part_seal log.now roots) }
{
    match roots {
        Some((facts, keys)) => seal_with(alloc, log, &facts, &keys),
        None => {
            let none = root_of(&[]);
            seal_with(alloc, log, &none, &none)
        }
    }
}

/// Makes the seal of the part of this name by its line in a seal, under a log. `Memory` if an allocation fails.
pub(crate) fn held_seal(
    alloc: Global,
    log: &Name,
    seal: &SiteSeal,
    name: &PartName,
) -> Result<Seal, Memory>
    ensures { IfOk result (λ s. s ≡ part_seal log.now (held_roots name.now seal.now.items)) }
{
    seal.type_invariant();
    part_seal(alloc, log, held_roots(name, seal.items()))
}

/// Makes the seal of the part of this name by its line in a seal, or by that as a window that went, under a log. `Memory` if
/// an allocation fails.
pub(crate) fn last_seal(
    alloc: Global,
    log: &Name,
    seal: &SiteSeal,
    name: &PartName,
) -> Result<Seal, Memory>
    ensures { IfOk result (λ s. s ≡ part_seal log.now (last_roots name.now seal.now.items)) }
{
    seal.type_invariant();
    part_seal(alloc, log, last_roots(name, seal.items()))
}

/// Decodes the lines of the items from that place on and before the next part. `Memory` if an allocation fails.
fn told_of(
    alloc: Global,
    items: &[GrowthItem],
    from: usize,
) -> Result<<Proof as ModelFile>::Told, Memory>
    ensures lines { IfOk result (λ told. told_lines told ≡ map item_line (own (drop from items.now))) }
    ensures told { IfOk result AreToldParts }
{
    let mut told = Proof::nothing();
    for index in from..items.len() {
        let item = &items[index];
        if is_window_line(item) {
            return Ok(told);
        }
        let line = item_line(alloc, item)?;
        put::<Proof>(alloc, &mut told, line.as_slice())?;
    }
    Ok(told)
}

/// Makes the proof of the items from that place on and before the next part, under a log. `Memory` if an allocation fails.
pub(crate) fn part_proof(
    alloc: Global,
    log: &Name,
    items: &[GrowthItem],
    from: usize,
) -> Result<Proof, Memory>
    requires { IsPartProof (drop from items.now) }
    ensures { IfOk result (λ p. p ≡ part_proof log.now (own (drop from items.now))) }
{
    log.type_invariant();
    proof_file_is_injective();
    let told = told_of(alloc, items, from)?;
    Ok(Proof::of_lines(log.copy(alloc)?, told))
}
