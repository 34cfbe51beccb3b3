//! The engine of `inventory`: the digests of the atoms of the union of inputs, as an inventory file.
ghost use Rattle.std.specs.Prelude.{false};
ghost use Rattle.cadf_inventory.specs.InventoryFile.{inventory_file};
ghost use Rattle.cadf_tool.specs.MissingBy.{inventory_model_of};
ghost use Rattle.cadf_tool.specs.laws.Engines.{of_inventory};
ghost use Rattle.cadf_tool.specs.Run.{one, transition_of, input_spec, IsRun};

use crate::engine::{Engine, run_one};
use crate::fault::{ToolFault, answered};
use cadf_inventory::write_inventory;
use cadf_json::{Sink, Source};
use cadf_set::{Inventory, Replica};
use std::alloc::Global;

/// Makes the inventory of a replica, and writes its file.
#[derive(Drop)]
pub(crate) struct InventoryEngine;

impl Engine for InventoryEngine {
    type Made = Inventory;

    ghost work = { λ _. inventory_model_of };

    ghost tell = { λ _. inventory_file };

    ghost is_whole = { false };

    ghost of_replica = { λ _. of_inventory };

    fn make(&self, _alloc: Global, replica: Replica) -> Result<Inventory, ToolFault> {
        replica.inventory().or(Err(ToolFault::Memory))
    }

    fn write<W: Sink>(
        &self,
        alloc: Global,
        made: &Inventory,
        output: &mut W,
    ) -> Result<(), ToolFault> {
        answered(write_inventory(alloc, made, output))
    }
}

/// Writes the inventory file of an input: its log, and the digest of each atom that it contributes. `Err`: why nothing
/// was written, or only a prefix.
pub fn run_inventory<R: Source, W: Sink>(
    alloc: Global,
    input: &mut R,
    output: &mut W,
) -> Result<(), ToolFault>
    ensures { IsRun (one input_spec (transition_of R.Source input.old input.new)) inventory_model_of
        inventory_file W.Sink output.old output.new result }
{
    run_one(alloc, &InventoryEngine, input, output)
}
