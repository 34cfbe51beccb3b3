//! The engines of `prove`: the proof of which facts of an input are in a union of others, or of which keys of a list facts of
//! the union have, as a proof file.
ghost use Rattle.std.specs.Prelude.{Ok};
ghost use Rattle.cadf_evidence.specs.ProofFile.{proof_file};
ghost use Rattle.cadf_set.specs.Inventory.{inventory_of};
ghost use Rattle.cadf_tool.specs.Join.{facts_under, on_ok};
ghost use Rattle.cadf_tool.specs.Prove.{keys_proof_for, proof_for};
ghost use Rattle.cadf_tool.specs.ModelInput.{keys_spec};
ghost use Rattle.cadf_tool.specs.Run.{input_spec, IsWorked};

use crate::fault::{ToolFault, answered};
use crate::first::First;
use crate::input::Loaded;
use crate::inputs::{load_model, load_one};
use crate::join::facts_under;
use cadf_event::Name;
use cadf_evidence::{KeyList, Proof};
use cadf_json::{Sink, Source};
use cadf_linefile::write_model;
use cadf_set::{Inventory, Replica};
use std::alloc::Global;

/// Lists what the first input contributes to the log. `OtherLog` if that input names another log.
fn asked_of(alloc: Global, log: &Name, facts: Loaded) -> Result<Inventory, ToolFault>
    ensures { IsWorked (on_ok (facts_under 1 log.now facts) (λ f. Ok (inventory_of f))) result }
{
    facts_under(alloc, 1, log, facts)?
        .inventory()
        .or(Err(ToolFault::Memory))
}

/// Makes the proof, by the inventory of `held`, for what the first input contributes to its log. `OtherLog` if that
/// input names another log.
fn proof_for(alloc: Global, facts: Loaded, held: &Replica) -> Result<Proof, ToolFault>
    ensures { IsWorked (proof_for facts held.now) result }
{
    let asked = asked_of(alloc, held.log(), facts)?;
    let inventory = held.inventory()?;
    Proof::of(alloc, &asked, &inventory).or(Err(ToolFault::Memory))
}

/// An input whose facts are asked for. The proof of which of them are in the union is made, and its file is written.
impl First for Loaded {
    type Made = Proof;

    ghost spec = { input_spec };

    ghost work = { proof_for };

    ghost tell = { proof_file };

    fn load<R: Source>(alloc: Global, source: &mut R) -> Result<Self, ToolFault> {
        load_one(alloc, 1, source)
    }

    fn make(self, alloc: Global, union: Replica) -> Result<Proof, ToolFault> {
        proof_for(alloc, self, &union)
    }

    fn write<W: Sink>(alloc: Global, made: &Proof, output: &mut W) -> Result<(), ToolFault> {
        answered(write_model(alloc, made, output))
    }
}

/// Makes the proof, by the keys of `held`, for the list of keys. `OtherLog` if the list is of another log.
fn keys_proof_for(alloc: Global, keys: &KeyList, held: &Replica) -> Result<Proof, ToolFault>
    ensures { IsWorked (keys_proof_for keys.now held.now) result }
{
    if keys.log().as_str() != held.log().as_str() {
        return Err(ToolFault::OtherLog(1));
    }
    Proof::of_keys(alloc, keys, held).or(Err(ToolFault::Memory))
}

/// A list of keys that are asked for. The proof of which of them facts of the union have is made, and its file is written.
impl First for KeyList {
    type Made = Proof;

    ghost spec = { keys_spec };

    ghost work = { keys_proof_for };

    ghost tell = { proof_file };

    fn load<R: Source>(alloc: Global, source: &mut R) -> Result<Self, ToolFault> {
        load_model(alloc, 1, source)
    }

    fn make(self, alloc: Global, union: Replica) -> Result<Proof, ToolFault> {
        keys_proof_for(alloc, &self, &union)
    }

    fn write<W: Sink>(alloc: Global, made: &Proof, output: &mut W) -> Result<(), ToolFault> {
        answered(write_model(alloc, made, output))
    }
}
