//! The engine of `sealed`: the digests of all facts of the union of inputs, and of their keys, as a sealed list.
ghost use Rattle.std.specs.Prelude.{false};
ghost use Rattle.cadf_tool.specs.declared.input.Loaded.TheVariants as loaded;
ghost use Rattle.cadf_tool.specs.Listed.{sealed_file, sealed_model_of};
ghost use Rattle.cadf_tool.specs.Run.{IsWorked};
ghost use Rattle.cadf_tool.specs.laws.Engines.{of_sealed};

use crate::engine::Engine;
use crate::fault::{ToolFault, answered};
use cadf_evidence::sealed_of;
use cadf_json::Sink;
use cadf_linefile::write_model;
use cadf_listed::{Listed, Sealed};
use cadf_set::Replica;
use std::alloc::Global;

/// Makes the sealed list of a replica. `Memory` if an allocation fails.
fn listed(alloc: Global, replica: &Replica) -> Result<Listed<Sealed>, ToolFault>
    ensures { IsWorked (sealed_model_of (loaded.Replica replica.now)) result }
{
    sealed_of(alloc, replica).or(Err(ToolFault::Memory))
}

/// Makes the sealed list of a replica, and writes its file: its log, and the digests of its facts and of their keys.
#[derive(Drop)]
pub(crate) struct SealedEngine;

impl Engine for SealedEngine {
    type Made = Listed<Sealed>;

    ghost work = { λ _. sealed_model_of };

    ghost tell = { λ _. sealed_file };

    ghost is_whole = { false };

    ghost of_replica = { λ _. of_sealed };

    fn make(&self, alloc: Global, replica: Replica) -> Result<Listed<Sealed>, ToolFault> {
        listed(alloc, &replica)
    }

    fn write<W: Sink>(
        &self,
        alloc: Global,
        made: &Listed<Sealed>,
        output: &mut W,
    ) -> Result<(), ToolFault> {
        answered(write_model(alloc, made, output))
    }
}
