//! How one sealed set came of another, to a reader with both seals and a proof.
ghost use Rattle.std.specs.Prelude.{◌≡◌, Ok, Err, IfOk, IfErr, option_map};
ghost use Rattle.cadf_evidence.specs.Growth.{growth_of, keys_growth, error_of, is_listed, unlisted, gone_fault, all_gone_fault, list_fault, log_fault, growth_text, later_fault, grown, GrowthFaultIs};

use crate::fault::{ProofFault, input_of, proof_fault};
use crate::proof::Proof;
use crate::seal::Seal;
use cadf_event::Name;
use cadf_json::Memory;
use cadf_listed::{Erased, Listed};
use cadf_tree::{Growth, Kind, Part, Root, grew};
use std::alloc::Global;
use std::fmt;
use thiserror::Error;

/// Whose digests are sealed.
#[derive(Clone, Copy, Debug, Drop, PartialEq, Eq, Error)]
pub enum SealedSet {
    #[error("facts")]
    Facts,
    #[error("keys")]
    Keys,
}

/// A digest that is shown by its digits.
#[derive(Clone, Copy, Debug, Drop, PartialEq, Eq)]
pub struct Digest {
    pub bytes: [u8; 32],
}

impl fmt::Display for Digest {
    fn fmt<W: fmt::Write>(&self, f: &mut fmt::Formatter<W>) -> fmt::Result {
        let mut text = [0u8; 64];
        let _encoded = hex::encode_to_slice(&self.bytes, &mut text);
        match str::from_utf8(&text) {
            Ok(text) => f.write_str(text),
            Err(_) => Err(fmt::Error),
        }
    }
}

/// Why a proof, which is input 3, doesn't show how the set of input 2, a seal, came of that of input 1, an earlier one; or
/// what went and isn't in the list, which is input 4 if there is one.
#[derive(Clone, Copy, Debug, Drop, PartialEq, Eq, Error)]
pub enum GrowthFault {
    /// The input of that number names another log than the first.
    #[error("input {0}: other log")]
    OtherLog(u64),
    /// The parts of that tree show nothing under both seals, or more than changed.
    #[error("input {0}: {1}: {2}")]
    Proof(u64, SealedSet, ProofFault),
    /// The later set hasn't this digest any more.
    #[error("input 2: {0}: gone: {1}")]
    Gone(SealedSet, Digest),
    /// An allocation failed.
    #[error("out of memory")]
    Memory,
}

impl From<Memory> for GrowthFault {
    ghost use Rattle.std.specs.Prelude.{◌≡◌};
    ghost use Rattle.cadf_evidence.specs.declared.growth.GrowthFault.TheVariants.{Memory as OutOfMemory};

    ghost from_gives = { λ _ e. e ≡ OutOfMemory };

    fn from(_refused: Memory) -> GrowthFault {
        GrowthFault::Memory
    }
}

/// Judges how one of the trees came of the earlier one.
fn growth_of(
    set: SealedSet,
    earlier: &Root,
    later: &Root,
    parts: &[Part],
) -> Result<Growth, GrowthFault>
    ensures { result ≡ growth_of set earlier.now later.now parts.now }
{
    match grew(earlier, later, parts) {
        Ok(growth) => Ok(growth),
        Err(fault) => Err(GrowthFault::Proof(input_of(fault), set, proof_fault(fault))),
    }
}

/// Judges how the keys' tree came of the earlier one, and returns the fault.
fn keys_fault(earlier: &Root, later: &Root, proof: &Proof) -> Option<GrowthFault>
    ensures { result ≡ error_of (keys_growth earlier.now later.now proof.now.keys) }
{
    match proof.keys() {
        None => Some(GrowthFault::Proof(3, SealedSet::Keys, ProofFault::NoTree)),
        Some(keys) => growth_of(SealedSet::Keys, earlier, later, keys).err(),
    }
}

/// Returns whether the list has the fact or the key of the digest; without a list none is listed.
fn is_listed(set: SealedSet, list: Option<&Listed<Erased>>, digest: &[u8; 32]) -> bool
    ensures { result ≡ is_listed set (option_map (λ l. l.now) list.entry) digest.now }
{
    match (set, list) {
        (_, None) => false,
        (SealedSet::Facts, Some(list)) => list.has_fact(digest),
        (SealedSet::Keys, Some(list)) => list.has_key(digest),
    }
}

/// Returns the digest of a leaf that went and isn't listed.
fn unlisted(set: SealedSet, list: Option<&Listed<Erased>>, part: &Part) -> Option<[u8; 32]>
    ensures { result ≡ unlisted set (option_map (λ l. l.now) list.entry) part.now }
{
    match part {
        Part::Leaf(Kind::Gone, digest) => {
            if is_listed(set, list, digest) {
                None
            } else {
                Some(*digest)
            }
        }
        _ => None,
    }
}

/// Returns the first leaf that went and isn't listed.
fn gone_fault(set: SealedSet, list: Option<&Listed<Erased>>, parts: &[Part]) -> Option<GrowthFault>
    ensures { result ≡ gone_fault set (option_map (λ l. l.now) list.entry) parts.now }
{
    for part in parts {
        if let Some(bytes) = unlisted(set, list, part) {
            return Some(GrowthFault::Gone(set, Digest { bytes }));
        }
    }
    None
}

/// Returns the first leaf of either tree that went and isn't listed.
fn all_gone_fault(list: Option<&Listed<Erased>>, proof: &Proof) -> Option<GrowthFault>
    ensures { result ≡ all_gone_fault (option_map (λ l. l.now) list.entry) proof.now }
{
    if let Some(fault) = gone_fault(SealedSet::Facts, list, proof.facts()) {
        return Some(fault);
    }
    match proof.keys() {
        None => None,
        Some(keys) => gone_fault(SealedSet::Keys, list, keys),
    }
}

/// Returns the list, input 4, if it is of another log than the first input.
fn list_fault(earlier: &Name, list: Option<&Listed<Erased>>) -> Option<GrowthFault>
    ensures { result ≡ list_fault earlier.now (option_map (λ l. l.now) list.entry) }
{
    match list {
        Some(list) if list.log().as_str() != earlier.as_str() => Some(GrowthFault::OtherLog(4)),
        _ => None,
    }
}

/// Returns the input that is of another log than the first one.
fn log_fault(
    earlier: &Name,
    later: &Name,
    proof: &Name,
    list: Option<&Listed<Erased>>,
) -> Option<GrowthFault>
    ensures { result ≡ log_fault earlier.now later.now proof.now (option_map (λ l. l.now) list.entry) }
{
    if later.as_str() != earlier.as_str() {
        return Some(GrowthFault::OtherLog(2));
    }
    if proof.as_str() != earlier.as_str() {
        return Some(GrowthFault::OtherLog(3));
    }
    list_fault(earlier, list)
}

/// Makes the text that says how many facts were added, and, with a list, how many were erased.
fn growth_text(
    alloc: Global,
    list: Option<&Listed<Erased>>,
    growth: &Growth,
) -> Result<Vec<u8>, Memory>
    ensures { IfOk result (λ text. text.items ≡ growth_text (option_map (λ l. l.now) list.entry) growth.now) }
{
    let added = growth.added;
    let gone = growth.gone;
    let text = match list {
        None => format!(in alloc; "added {added}\n")?,
        Some(_) => format!(in alloc; "added {added}, erased {gone}\n")?,
    };
    Ok(text.into_bytes())
}

/// Returns what is wrong with the keys' tree, or the first leaf that went and isn't listed.
fn later_fault(
    earlier: &Seal,
    later: &Seal,
    proof: &Proof,
    list: Option<&Listed<Erased>>,
) -> Option<GrowthFault>
    ensures { result ≡ later_fault earlier.now later.now proof.now (option_map (λ l. l.now) list.entry) }
{
    match keys_fault(earlier.keys(), later.keys(), proof) {
        Some(fault) => Some(fault),
        None => all_gone_fault(list, proof),
    }
}

/// Judges, by a proof under two seals, how the later set came of the earlier one: what was added, and that nothing is gone;
/// with a list, nothing but what it has. Returns a line of text. `Err`: the first fault.
pub fn grown(
    alloc: Global,
    earlier: &Seal,
    later: &Seal,
    proof: &Proof,
    list: Option<&Listed<Erased>>,
) -> Result<Vec<u8>, GrowthFault>
    ensures ok { IfOk result (λ text. grown earlier.now later.now proof.now (option_map (λ l. l.now) list.entry) ≡ Ok text.items) }
    ensures err { IfErr result (λ e. GrowthFaultIs e (grown earlier.now later.now proof.now (option_map (λ l. l.now) list.entry))) }
{
    if let Some(fault) = log_fault(earlier.log(), later.log(), proof.log(), list) {
        return Err(fault);
    }
    let growth = growth_of(
        SealedSet::Facts,
        earlier.facts(),
        later.facts(),
        proof.facts(),
    )?;
    if let Some(fault) = later_fault(earlier, later, proof, list) {
        return Err(fault);
    }
    Ok(growth_text(alloc, list, &growth)?)
}
