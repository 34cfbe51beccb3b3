//! The engine of `seal`: the seal of the union of inputs, as a seal file.
ghost use Rattle.std.specs.Prelude.{false};
ghost use Rattle.cadf_evidence.specs.SealFile.{seal_file};
ghost use Rattle.cadf_tool.specs.declared.input.Loaded.TheVariants as loaded;
ghost use Rattle.cadf_tool.specs.Run.{IsWorked};
ghost use Rattle.cadf_tool.specs.Seal.{seal_model_of};
ghost use Rattle.cadf_tool.specs.laws.Engines.{of_seal};

use crate::engine::Engine;
use crate::fault::{ToolFault, answered};
use cadf_evidence::Seal;
use cadf_json::Sink;
use cadf_linefile::write_model;
use cadf_set::Replica;
use std::alloc::Global;

/// Makes the seal of a replica. `Memory` if an allocation fails.
fn sealed(alloc: Global, replica: &Replica) -> Result<Seal, ToolFault>
    ensures { IsWorked (seal_model_of (loaded.Replica replica.now)) result }
{
    Seal::of(alloc, replica).or(Err(ToolFault::Memory))
}

/// Makes the seal of a replica, and writes its file: its log, how many facts and how many keys it has, and the roots of the
/// trees over their digests.
#[derive(Drop)]
pub(crate) struct SealEngine;

impl Engine for SealEngine {
    type Made = Seal;

    ghost work = { λ _. seal_model_of };

    ghost tell = { λ _. seal_file };

    ghost is_whole = { false };

    ghost of_replica = { λ _. of_seal };

    fn make(&self, alloc: Global, replica: Replica) -> Result<Seal, ToolFault> {
        sealed(alloc, &replica)
    }

    fn write<W: Sink>(&self, alloc: Global, made: &Seal, output: &mut W) -> Result<(), ToolFault> {
        answered(write_model(alloc, made, output))
    }
}
