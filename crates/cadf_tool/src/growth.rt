//! The engine of `growth`: the proof of how a union of inputs came of what a sealed list has, as a proof file.
ghost use Rattle.cadf_evidence.specs.ProofFile.{proof_file};
ghost use Rattle.cadf_tool.specs.Listed.{growth_for};
ghost use Rattle.cadf_tool.specs.ModelInput.{sealed_spec};
ghost use Rattle.cadf_tool.specs.Run.{IsWorked};

use crate::fault::{ToolFault, answered};
use crate::first::First;
use crate::inputs::load_model;
use cadf_evidence::Proof;
use cadf_json::{Sink, Source};
use cadf_linefile::write_model;
use cadf_listed::{Listed, Sealed};
use cadf_set::Replica;
use std::alloc::Global;

/// Makes the proof of growth from what the list has to the replica. `OtherLog` if the list is of another log.
fn growth_for(alloc: Global, sealed: &Listed<Sealed>, held: &Replica) -> Result<Proof, ToolFault>
    ensures { IsWorked (growth_for sealed.now held.now) result }
{
    if sealed.log().as_str() != held.log().as_str() {
        return Err(ToolFault::OtherLog(1));
    }
    Proof::of_growth(alloc, sealed, held).or(Err(ToolFault::Memory))
}

/// A sealed list. The proof of growth from what it has to the union is made, and its file is written.
impl First for Listed<Sealed> {
    type Made = Proof;

    ghost spec = { sealed_spec };

    ghost work = { growth_for };

    ghost tell = { proof_file };

    fn load<R: Source>(alloc: Global, source: &mut R) -> Result<Self, ToolFault> {
        load_model(alloc, 1, source)
    }

    fn make(self, alloc: Global, union: Replica) -> Result<Proof, ToolFault> {
        growth_for(alloc, &self, &union)
    }

    fn write<W: Sink>(alloc: Global, made: &Proof, output: &mut W) -> Result<(), ToolFault> {
        answered(write_model(alloc, made, output))
    }
}
