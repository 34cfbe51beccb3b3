//! What a proof says of facts, or of keys, to a reader with a seal.
ghost use Rattle.std.specs.Prelude.{◌≡◌, Ok, IfOk, IfErr};
ghost use Rattle.cadf_join.specs.Sets.{rising};
ghost use Rattle.cadf_tree.specs.Presence.{shown};
ghost use Rattle.cadf_evidence.specs.ShownParts.{AreGaps, AreLeaves};
ghost use Rattle.cadf_evidence.specs.Verified.{alone_fault, first_fault, refusal, state_fault, tree_refusal, verified, verified_keys, VerifyFaultIs};

use crate::fault::{ProofFault, proof_fault};
use crate::key_list::KeyList;
use crate::proof::Proof;
use crate::seal::{Seal, digests_of};
use crate::shown_parts::{Gap, gaps_of, leaves_of, state_of};
use crate::telling::{FactLines, told, told_keys};
use cadf_event::Name;
use cadf_json::Memory;
use cadf_set::{Inventory, Replica};
use cadf_tree::{Part, Root, shown};
use std::alloc::Global;
use thiserror::Error;

/// What is asked of a proof.
#[derive(Clone, Copy, Debug, Drop, PartialEq, Eq, Error)]
pub enum Asked {
    #[error("fact")]
    Fact,
    #[error("key")]
    Key,
}

/// Why a proof, which is input 3, is refused for some facts or keys, or one of them isn't as asked. They are counted from 1.
#[derive(Clone, Copy, Debug, Drop, PartialEq, Eq, Error)]
pub enum VerifyFault {
    /// The proof's parts show nothing under the seal, or more than is asked for.
    #[error("input 3: {0}")]
    Proof(ProofFault),
    /// The proof doesn't show whether the fact or the key of that number is there.
    #[error("{0} {1}: not shown")]
    NotShown(Asked, u64),
    /// The fact of that number isn't there, or no fact has the key.
    #[error("{0} {1}: absent")]
    Absent(Asked, u64),
    /// The fact of that number is there, or one has the key.
    #[error("{0} {1}: present")]
    Present(Asked, u64),
    /// An allocation failed.
    #[error("out of memory")]
    Memory,
}

impl From<Memory> for VerifyFault {
    ghost use Rattle.std.specs.Prelude.{◌≡◌};
    ghost use Rattle.cadf_evidence.specs.declared.verify.VerifyFault.TheVariants.{Memory as OutOfMemory};

    ghost from_gives = { λ _ e. e ≡ OutOfMemory };

    fn from(_refused: Memory) -> VerifyFault {
        VerifyFault::Memory
    }
}

/// Returns why the fact or key of that number isn't as asked, if it isn't, by what the proof shows of it.
fn state_fault(asked: Asked, absent: bool, number: u64, state: Option<bool>) -> Option<VerifyFault>
    ensures { result ≡ state_fault asked absent number state }
{
    match (absent, state) {
        (_, None) => Some(VerifyFault::NotShown(asked, number)),
        (true, Some(true)) => Some(VerifyFault::Present(asked, number)),
        (false, Some(false)) => Some(VerifyFault::Absent(asked, number)),
        _ => None,
    }
}

/// Returns the fault of the first of these digests that isn't as asked, counted from 1.
fn first_fault(
    asked: Asked,
    absent: bool,
    leaves: &Inventory,
    gaps: &[Gap],
    parts: &[Part],
    digests: &[[u8; 32]],
) -> Option<VerifyFault>
    requires leaves { AreLeaves leaves.now.digests parts.now }
    requires gaps { AreGaps gaps.now parts.now }
    ensures { result ≡ first_fault asked absent parts.now 1 digests.now }
{
    for index in 0..digests.len() {
        let state = state_of(leaves, gaps, parts, &digests[index]);
        if let Some(fault) = state_fault(asked, absent, index as u64 + 1, state) {
            return Some(fault);
        }
    }
    None
}

/// Returns why the parts don't show what these digests need, and no more, under the root.
fn tree_refusal(root: &Root, parts: &[Part], digests: &[[u8; 32]]) -> Option<VerifyFault>
    ensures { result ≡ tree_refusal (shown root.now parts.now digests.now) }
{
    match shown(root, parts, digests) {
        Some(fault) => Some(VerifyFault::Proof(proof_fault(fault))),
        None => None,
    }
}

/// Returns the fault of a proof that has parts of the other tree.
fn alone_fault(alone: bool) -> Option<VerifyFault>
    ensures { result ≡ alone_fault alone }
{
    if alone {
        None
    } else {
        Some(VerifyFault::Proof(ProofFault::NotNeeded))
    }
}

/// Returns the first of these digests that isn't as asked by the parts, under a log. `Memory` if an allocation fails.
fn asked_fault(
    alloc: Global,
    asked: Asked,
    log: &Name,
    parts: &[Part],
    digests: &[[u8; 32]],
    absent: bool,
) -> Result<Option<VerifyFault>, Memory>
    ensures { IfOk result (λ fault. fault ≡ first_fault asked absent parts.now 1 digests.now) }
{
    let leaves = leaves_of(alloc, log.copy(alloc)?, parts)?;
    let gaps = gaps_of(alloc, parts)?;
    Ok(first_fault(asked, absent, &leaves, gaps.as_slice(), parts, digests))
}

/// Returns why the parts are refused under the root for what is wanted, an inventory and its digests in their order, or the
/// first that isn't as asked. `alone`: the proof has no parts of the other tree. `Memory` if an allocation fails.
fn refusal(
    alloc: Global,
    asked: Asked,
    root: &Root,
    parts: &[Part],
    alone: bool,
    wanted: &Inventory,
    digests: &[[u8; 32]],
    absent: bool,
) -> Result<Option<VerifyFault>, Memory>
    ensures { IfOk result (λ fault. fault ≡ refusal asked root.now parts.now alone (rising wanted.now.digests) digests.now absent) }
{
    let rising = digests_of(alloc, wanted)?;
    if let Some(fault) = tree_refusal(root, parts, rising.as_slice()) {
        return Ok(Some(fault));
    }
    if let Some(fault) = alone_fault(alone) {
        return Ok(Some(fault));
    }
    asked_fault(alloc, asked, wanted.log(), parts, digests, absent)
}

/// Verifies, by a proof under the seal, that each of the facts is in the sealed set; with `absent`, that none is. Returns a
/// line of text for each fact, in the order of atoms. `Err`: the first fault. The log isn't compared.
pub fn verified(
    alloc: Global,
    seal: &Seal,
    facts: &Replica,
    proof: &Proof,
    absent: bool,
) -> Result<FactLines, VerifyFault>
    ensures ok { IfOk result (λ lines. verified seal.now proof.now facts.now.atoms absent ≡ Ok lines) }
    ensures err { IfErr result (λ e. VerifyFaultIs e (verified seal.now proof.now facts.now.atoms absent)) }
{
    let wanted = facts.inventory()?;
    let digests = facts.digests()?;
    let alone = proof.keys().is_none();
    let (root, parts) = (seal.facts(), proof.facts());
    let digests = digests.as_slice();
    if let Some(fault) = refusal(
        alloc,
        Asked::Fact,
        root,
        parts,
        alone,
        &wanted,
        digests,
        absent,
    )? {
        return Err(fault);
    }
    Ok(told(alloc, facts, absent)?)
}

/// Verifies, by a proof under the seal, that each of the keys is that of a fact of the sealed set; with `absent`, that none
/// is. Returns a line of text for each key, in their order. `Err`: the first fault. The log isn't compared.
pub fn verified_keys(
    alloc: Global,
    seal: &Seal,
    keys: &KeyList,
    proof: &Proof,
    absent: bool,
) -> Result<FactLines, VerifyFault>
    ensures ok { IfOk result (λ lines. verified_keys seal.now proof.now keys.now.keys absent ≡ Ok lines) }
    ensures err { IfErr result (λ e. VerifyFaultIs e (verified_keys seal.now proof.now keys.now.keys absent)) }
{
    let Some(parts) = proof.keys() else {
        return Err(VerifyFault::Proof(ProofFault::NoTree));
    };
    let wanted = keys.inventory(alloc)?;
    let digests = keys.digests(alloc)?;
    let alone = proof.facts().is_empty();
    let (root, digests) = (seal.keys(), digests.as_slice());
    if let Some(fault) = refusal(
        alloc,
        Asked::Key,
        root,
        parts,
        alone,
        &wanted,
        digests,
        absent,
    )? {
        return Err(fault);
    }
    Ok(told_keys(alloc, keys, absent)?)
}
