//! The file of a proof.
ghost use Rattle.std.specs.Prelude.{◌≡◌, ◌∷◌, [], None, is_some, IfOk, IfErr, OnOk, refl};
ghost use Rattle.cadf_linefile.specs.Answers.{CauseIs};
ghost use Rattle.cadf_linefile.specs.LineGrammar.{shape_unless};
ghost use Rattle.cadf_evidence.specs.ProofFile.{proof_lines, part_line, leaf_mark, IsProof};
ghost use Rattle.cadf_evidence.specs.ProofVerdict.{proof_kind, leaf_in, part_in, starts_keys, cause_after};
ghost use Rattle.cadf_evidence.specs.ProofLines.{told_lines, AreTold, IsPutInto};

use crate::marked::{digest_after, digest_line};
use crate::proof::{Parts, Proof};
use cadf_event::Name;
use cadf_json::Memory;
use cadf_linefile::{Cause, LineFault, ModelFile};
use cadf_tree::{Kind, Part};
use std::alloc::Global;
use std::mem;

/// Decodes the line of a leaf. `None` if it is no such line.
#[tactic(auto, unfolding(crate::specs::ProofVerdict::leaf_in))]
fn leaf_in(line: &[u8]) -> Option<Part>
    ensures { result ≡ leaf_in line.now }
{
    if let Some(digest) = digest_after(b"P ", line) {
        return Some(Part::Leaf(Kind::Both, digest));
    }
    if let Some(digest) = digest_after(b"A ", line) {
        return Some(Part::Leaf(Kind::Added, digest));
    }
    let digest = digest_after(b"G ", line)?;
    Some(Part::Leaf(Kind::Gone, digest))
}

/// Decodes the line of a part. `None` if it is no such line.
#[tactic(auto, unfolding(crate::specs::ProofVerdict::part_in))]
fn part_in(line: &[u8]) -> Option<Part>
    ensures { result ≡ part_in line.now }
{
    if line == b"N".as_slice() {
        return Some(Part::Node);
    }
    if let Some(hash) = digest_after(b"H ", line) {
        return Some(Part::Hash(hash));
    }
    leaf_in(line)
}

/// Returns whether the line begins the keys' parts.
#[tactic(auto, unfolding(crate::specs::ProofVerdict::starts_keys))]
fn starts_keys(line: &[u8]) -> bool
    ensures { result ≡ starts_keys line.now }
{
    line == b"K".as_slice()
}

/// Returns what the line of a leaf begins with.
fn leaf_mark<'a>(kind: &Kind) -> &'a [u8]
    ensures { result.now ≡ leaf_mark kind.now }
{
    match kind {
        Kind::Both => b"P ",
        Kind::Added => b"A ",
        Kind::Gone => b"G ",
    }
}

/// Makes the line of a part.
fn part_line(alloc: Global, part: &Part) -> Result<Vec<u8>, Memory>
    ensures { IfOk result (λ line. line.items ≡ part_line part.now) }
{
    match part {
        Part::Node => Ok(Vec::from_slice(alloc, b"N")?),
        Part::Hash(hash) => digest_line(alloc, b"H ", hash),
        Part::Leaf(kind, digest) => digest_line(alloc, leaf_mark(kind), digest),
    }
}

/// Appends the part of a line. `Err` if it is no such line.
fn put_part(parts: &mut Vec<Part>, line: &[u8]) -> Result<(), LineFault>
    ensures ok { OnOk result (IsPutInto parts.old.items line.now parts.new.items) }
    ensures err { IfErr result (λ e. CauseIs e (shape_unless (is_some (part_in line.now)))) }
{
    let part = part_in(line).ok_or(LineFault::Here(Cause::Shape))?;
    parts.push(part)?;
    Ok(())
}

/// Makes the parts of the first line: that of a part, or the one that begins the keys' parts. `Err` if it is neither.
fn first_parts(alloc: Global, line: &[u8]) -> Result<Parts, LineFault>
    ensures ok { IfOk result (λ parts. (cause_after [] line.now ≡ None) × (told_lines parts ≡ line.now ∷ []) × AreTold parts) }
    ensures err { IfErr result (λ e. CauseIs e (cause_after [] line.now)) }
{
    let mut facts = Vec::new(alloc);
    if starts_keys(line) {
        return Ok(Parts::Keys(facts, Vec::new(alloc)));
    }
    match put_part(&mut facts, line) {
        Ok(()) => Ok(Parts::Facts(facts)),
        Err(fault) => Err(fault),
    }
}

impl ModelFile for Proof {
    ghost kind = { proof_kind };

    ghost holds = { IsProof };

    ghost log = { λ p. p.log };

    ghost lines = { proof_lines };

    ghost body = { λ _. refl };

    type Told = Parts;

    ghost told_lines = { told_lines };

    ghost sound = { AreTold };

    fn accepted() {}

    fn first_line() -> &'static str {
        "CADF-PROOF 1"
    }

    fn nothing() -> Parts {
        Parts::Nothing
    }

    fn put_line(alloc: Global, told: &mut Parts, line: &[u8]) -> Result<(), LineFault> {
        match told {
            Parts::Nothing => {
                *told = first_parts(alloc, line)?;
                Ok(())
            }
            Parts::Facts(facts) => {
                if !starts_keys(line) {
                    return put_part(facts, line);
                }
                let facts = mem::replace(facts, Vec::new(alloc));
                *told = Parts::Keys(facts, Vec::new(alloc));
                Ok(())
            }
            Parts::Keys(_, keys) => put_part(keys, line),
        }
    }

    fn is_whole(_told: &Parts) -> bool {
        true
    }

    fn of_lines(name: Name, told: Parts) -> Proof {
        Proof {
            log: name,
            parts: told,
        }
    }

    fn log_name(&self) -> &Name {
        self.log()
    }

    fn line_count(&self) -> usize {
        let facts = self.facts().len();
        match self.keys() {
            None => facts,
            Some(keys) => facts + 1 + keys.len(),
        }
    }

    fn line_at(&self, alloc: Global, place: usize) -> Result<Vec<u8>, Memory> {
        let facts = self.facts();
        if place < facts.len() {
            return part_line(alloc, &facts[place]);
        }
        let at = place - facts.len();
        if at == 0 {
            return Ok(Vec::from_slice(alloc, b"K")?);
        }
        match self.keys() {
            Some(keys) => part_line(alloc, &keys[at - 1]),
            None => unreachable!(),
        }
    }
}
