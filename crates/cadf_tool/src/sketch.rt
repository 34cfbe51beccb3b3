//! The engine of `sketch`: a short sketch of the inventory of the union of inputs, as a sketch file.
ghost use Rattle.std.specs.Prelude.{false};
ghost use Rattle.cadf_sketch.specs.SketchFile.{sketch_file};
ghost use Rattle.cadf_tool.specs.declared.input.Loaded.TheVariants as loaded;
ghost use Rattle.cadf_tool.specs.Run.{IsWorked};
ghost use Rattle.cadf_tool.specs.Sketch.{sketch_model_of};
ghost use Rattle.cadf_tool.specs.laws.Engines.{of_sketch};

use crate::engine::Engine;
use crate::fault::{ToolFault, answered};
use cadf_json::Sink;
use cadf_linefile::write_model;
use cadf_set::Replica;
use cadf_sketch::{Cells, Salt, Sketch};
use std::alloc::Global;

/// Makes the sketch of a replica's inventory, with the cells and the salt that are given, and writes its file. The number
/// of cells is `Cells::by_default` if none is given. If no salt is given, the inventory's digest determines it, so that one
/// set has one sketch.
#[derive(Drop)]
pub(crate) struct SketchEngine {
    pub(crate) cells: Option<Cells>,
    pub(crate) salt: Option<Salt>,
}

impl SketchEngine {
    /// Makes the sketch of a replica's inventory. `Memory` if an allocation fails.
    fn sketched(&self, alloc: Global, replica: &Replica) -> Result<Sketch, ToolFault>
        ensures { IsWorked (sketch_model_of self.now.cells self.now.salt (loaded.Replica replica.now)) result }
    {
        let inventory = replica.inventory()?;
        let cells = self.cells.unwrap_or(Cells::by_default());
        Sketch::of(alloc, &inventory, cells, self.salt).or(Err(ToolFault::Memory))
    }
}

impl Engine for SketchEngine {
    type Made = Sketch;

    ghost work = { λ e. sketch_model_of e.cells e.salt };

    ghost tell = { λ _. sketch_file };

    ghost is_whole = { false };

    ghost of_replica = { λ e. of_sketch e.cells e.salt };

    fn make(&self, alloc: Global, replica: Replica) -> Result<Sketch, ToolFault> {
        self.sketched(alloc, &replica)
    }

    fn write<W: Sink>(
        &self,
        alloc: Global,
        made: &Sketch,
        output: &mut W,
    ) -> Result<(), ToolFault> {
        answered(write_model(alloc, made, output))
    }
}
