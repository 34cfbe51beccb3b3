//! The engine of `split`: joins inputs into one replica, and writes its split file.
ghost use Rattle.cadf_split.specs.Split.{split_text};
ghost use Rattle.cadf_tool.specs.Join.{join_of};
ghost use Rattle.cadf_tool.specs.Run.{all, IsRun};

use crate::fault::{ToolFault, answered};
use crate::join::join;
use cadf_event::Name;
use cadf_json::{Sink, Source};
use cadf_split::{Unit, write_split};
use std::alloc::Global;

/// Writes the split file by that unit of the union of all inputs, under the log that is given or else the first that an
/// input names. `Err`: why nothing was written, or only a prefix.
pub(crate) fn write_split_file<R: Source, W: Sink>(
    alloc: Global,
    unit: Unit,
    log: &Option<Name>,
    inputs: &mut [R],
    output: &mut W,
) -> Result<(), ToolFault>
    ensures { IsRun (all R.Source inputs.old inputs.new) (join_of log.now) (split_text unit)
        W.Sink output.old output.new result }
{
    let replica = join(alloc, log, inputs)?;
    answered(write_split(alloc, unit, &replica, output))
}
