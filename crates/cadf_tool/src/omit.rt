//! The engine of `omit`: what a union of inputs has without what an erased list leaves out, as a replica file.
ghost use Rattle.cadf_tool.specs.Listed.{left_file, left_for};
ghost use Rattle.cadf_tool.specs.ModelInput.{erased_spec};
ghost use Rattle.cadf_tool.specs.Run.{IsWorked};

use crate::fault::{ToolFault, answered};
use crate::first::First;
use crate::inputs::load_model;
use cadf_erased::write_left;
use cadf_json::{Sink, Source};
use cadf_listed::{Erased, Listed};
use cadf_set::Replica;
use std::alloc::Global;

/// Puts the list beside the replica. `OtherLog` if the list is of another log.
fn left_for(erased: Listed<Erased>, held: Replica) -> Result<(Listed<Erased>, Replica), ToolFault>
    ensures { IsWorked (left_for erased held) result }
{
    if erased.log().as_str() != held.log().as_str() {
        return Err(ToolFault::OtherLog(1));
    }
    Ok((erased, held))
}

/// An erased list. What is left of the union is written as a replica file.
impl First for Listed<Erased> {
    type Made = (Listed<Erased>, Replica);

    ghost spec = { erased_spec };

    ghost work = { left_for };

    ghost tell = { left_file };

    fn load<R: Source>(alloc: Global, source: &mut R) -> Result<Self, ToolFault> {
        load_model(alloc, 1, source)
    }

    fn make(self, _alloc: Global, union: Replica) -> Result<(Listed<Erased>, Replica), ToolFault> {
        left_for(self, union)
    }

    fn write<W: Sink>(
        alloc: Global,
        made: &(Listed<Erased>, Replica),
        output: &mut W,
    ) -> Result<(), ToolFault> {
        answered(write_left(alloc, &made.0, &made.1, output))
    }
}
