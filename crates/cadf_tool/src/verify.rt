//! The engines of `verify`: what a proof says, under a seal, of the facts of an input or of a list of keys.
ghost use Rattle.std.specs.Prelude.{◌≡◌, Bool, length, map, Result, Err, IfOk, IfErr};
ghost use Rattle.cadf_evidence.specs.ProofFile.{ProofModel};
ghost use Rattle.cadf_evidence.specs.SealFile.{SealModel};
ghost use Rattle.cadf_join.specs.Contents.{Text};
ghost use Rattle.cadf_tool.specs.Inputs.{source_state};
ghost use Rattle.cadf_tool.specs.Join.{IsOnOk};
ghost use Rattle.cadf_tool.specs.ModelInput.{keys_spec, seal_spec, proof_spec};
ghost use Rattle.cadf_tool.specs.Request.{three};
ghost use Rattle.cadf_tool.specs.Run.{InputSpec, input_spec, transition_of, with_number, IsReadAs, IsReadWithin, IsUnread, IsWorked, IsAnswer, IsRun};
ghost use Rattle.cadf_tool.specs.declared.fault.ToolFault.{ToolFault};
ghost use Rattle.cadf_tool.specs.Verify.{key_verdict_of, verdict_lines, verdict_of};

use crate::fault::ToolFault;
use crate::input::Loaded;
use crate::inputs::{load_model, load_one};
use crate::join::facts_under;
use cadf_evidence::{FactLines, KeyList, Proof, Seal, VerifyFault, verified, verified_keys};
use cadf_json::{Sink, Source};
use cadf_set::Replica;
use std::alloc::Global;

/// Makes the lines of facts that are taken under the log of the seal. `OtherLog`: the proof names another log. `NoFacts`:
/// there are none. `Unverified`: the proof is refused, or a fact isn't as asked. `Memory` if an allocation fails.
fn lines_of(
    alloc: Global,
    absent: bool,
    seal: &Seal,
    facts: &Replica,
    proof: &Proof,
) -> Result<FactLines, ToolFault>
    ensures { IsWorked (verdict_lines absent seal.now facts.now proof.now) result }
{
    if proof.log().as_str() != seal.log().as_str() {
        return Err(ToolFault::OtherLog(3));
    }
    if facts.atom_count() == 0 {
        return Err(ToolFault::NoFacts(2));
    }
    match verified(alloc, seal, facts, proof, absent) {
        Ok(lines) => Ok(lines),
        Err(VerifyFault::Memory) => Err(ToolFault::Memory),
        Err(fault) => Err(ToolFault::Unverified(fault)),
    }
}

/// Makes the lines of keys. `OtherLog`: the list names another log than the seal, or the proof does. `NoKeys`: there are none.
/// `Unverified`: the proof is refused, or a key isn't as asked. `Memory` if an allocation fails.
fn key_lines_of(
    alloc: Global,
    absent: bool,
    seal: &Seal,
    keys: &KeyList,
    proof: &Proof,
) -> Result<FactLines, ToolFault>
    ensures { IsWorked (key_verdict_of absent (seal.now, (keys.now, proof.now))) result }
{
    if keys.log().as_str() != seal.log().as_str() {
        return Err(ToolFault::OtherLog(2));
    }
    if proof.log().as_str() != seal.log().as_str() {
        return Err(ToolFault::OtherLog(3));
    }
    if keys.len() == 0 {
        return Err(ToolFault::NoKeys(2));
    }
    match verified_keys(alloc, seal, keys, proof, absent) {
        Ok(lines) => Ok(lines),
        Err(VerifyFault::Memory) => Err(ToolFault::Memory),
        Err(fault) => Err(ToolFault::Unverified(fault)),
    }
}

/// What is asked of a proof under a seal: how the second source is read as it, and what is said of it.
pub(crate) trait Question: Drop {
    // How the source is read, whatever bytes it begins with.
    ghost spec: { InputSpec Self };

    // What is said of it by a seal and a proof, or why nothing is.
    ghost verdict: { Bool → SealModel × (Self × ProofModel) → Result Text ToolFault };

    /// Reads it from the second source. `Err`: the source is refused, a read failed, or an allocation.
    fn load<R: Source>(alloc: Global, source: &mut R) -> Result<Self, ToolFault>
        ensures ok { IfOk result (IsReadAs spec (transition_of R.Source source.old source.new)) }
        ensures err { IfErr result (IsUnread (with_number 2 spec (transition_of R.Source source.old source.new))) }
        ensures reads { IsReadWithin spec.limit (transition_of R.Source source.old source.new) };

    /// Makes its lines. `Err`: why there are none.
    fn lines(
        self,
        alloc: Global,
        absent: bool,
        seal: &Seal,
        proof: &Proof,
    ) -> Result<FactLines, ToolFault>
        ensures { IsWorked (verdict absent (seal.now, (self, proof.now))) result };
}

/// Facts, which are taken under the log of the seal.
impl Question for Loaded {
    ghost spec = { input_spec };

    ghost verdict = { verdict_of };

    fn load<R: Source>(alloc: Global, source: &mut R) -> Result<Self, ToolFault> {
        load_one(alloc, 2, source)
    }

    fn lines(
        self,
        alloc: Global,
        absent: bool,
        seal: &Seal,
        proof: &Proof,
    ) -> Result<FactLines, ToolFault> {
        let facts = facts_under(alloc, 2, seal.log(), self)?;
        lines_of(alloc, absent, seal, &facts, proof)
    }
}

/// Keys of facts.
impl Question for KeyList {
    ghost spec = { keys_spec };

    ghost verdict = { key_verdict_of };

    fn load<R: Source>(alloc: Global, source: &mut R) -> Result<Self, ToolFault> {
        load_model(alloc, 2, source)
    }

    fn lines(
        self,
        alloc: Global,
        absent: bool,
        seal: &Seal,
        proof: &Proof,
    ) -> Result<FactLines, ToolFault> {
        key_lines_of(alloc, absent, seal, &self, proof)
    }
}

/// Makes the lines of what is asked, if the proof was read. `Err`: why there are none.
fn verdict<Q: Question>(
    alloc: Global,
    absent: bool,
    seal: &Seal,
    asked: Q,
    proof: &Result<Proof, ToolFault>,
) -> Result<FactLines, ToolFault>
    ensures { IsOnOk proof.now (λ given. IsWorked (Q.verdict absent (seal.now, (asked, given)))) result }
{
    match proof {
        Ok(proof) => asked.lines(alloc, absent, seal, proof),
        Err(fault) => Err(*fault),
    }
}

/// Writes the lines that were made. `Err`: why none were made, or `WriteFault`.
fn write_lines<W: Sink>(
    lines: Result<FactLines, ToolFault>,
    output: &mut W,
) -> Result<(), ToolFault>
    ensures written { IsAnswer (λ text. text) W.Sink output.old output.new lines result }
    ensures memory { result ≡ Err ToolFault.Memory → output.new ≡ output.old }
{
    lines?.write(output).or(Err(ToolFault::WriteFault))
}

/// Writes what the third of three sources, a proof, shows under the first, a seal, of what the second asks; with `absent`, that
/// nothing of it is there. The first and the last are read as such files, whatever bytes they begin with. `Err`: why nothing
/// was written, or only a prefix.
pub(crate) fn write_verdict<Q: Question, R: Source, W: Sink>(
    alloc: Global,
    absent: bool,
    sources: &mut [R],
    output: &mut W,
) -> Result<(), ToolFault>
    requires { length sources.old ≡ 3 }
    ensures verdict { IsRun (three seal_spec Q.spec proof_spec (map (source_state R.Source) sources.old) (map (source_state R.Source) sources.new))
        (Q.verdict absent) (λ text. text) W.Sink output.old output.new result }
    // All lines are made before they are written.
    ensures memory { result ≡ Err ToolFault.Memory → output.new ≡ output.old }
{
    let (seal, others) = sources.split_at_mut(1);
    let (facts, proof) = others.split_at_mut(1);
    let (seal, facts, proof) = (&mut seal[0], &mut facts[0], &mut proof[0]);
    let seal = load_model(alloc, 1, seal)?;
    let asked = Q::load(alloc, facts)?;
    let proof = load_model(alloc, 3, proof);
    write_lines(verdict(alloc, absent, &seal, asked, &proof), output)
}
