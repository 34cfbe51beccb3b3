//! Engines that work on one source, which is read in its own way, and on the union of all others.
ghost use Rattle.std.specs.Prelude.{◌≤◌, length, map, List, None, Result, IfOk, IfErr};
ghost use Rattle.cadf_join.specs.Contents.{Text};
ghost use Rattle.cadf_set.specs.Replica.{ReplicaModel};
ghost use Rattle.cadf_tool.specs.declared.fault.ToolFault.{ToolFault};
ghost use Rattle.cadf_tool.specs.declared.input.Loaded.{Loaded};
ghost use Rattle.cadf_tool.specs.Inputs.{source_state};
ghost use Rattle.cadf_tool.specs.Join.{with_union};
ghost use Rattle.cadf_tool.specs.JoinState.{IsJoinState};
ghost use Rattle.cadf_tool.specs.Request.{first_and_others};
ghost use Rattle.cadf_tool.specs.Run.{InputSpec, one, transition_of, IsReadAs, IsReadWithin, IsUnread, IsWorked, IsWritten, IsRun};

use crate::fault::ToolFault;
use crate::join::union_with;
use crate::join_state::JoinState;
use cadf_json::{Sink, Source};
use cadf_set::Replica;
use std::alloc::Global;

/// What the first source is read as, what is made of it and of the union of the others, and how its text is written.
pub(crate) trait First: Drop {
    /// What is made.
    type Made: Drop;

    // How the source is read, whatever bytes it begins with.
    ghost spec: { InputSpec Self };

    // What is made of it and of the union, or why nothing is.
    ghost work: { Self → ReplicaModel → Result Self.Made ToolFault };

    // The text of what is made.
    ghost tell: { Self.Made → Text };

    /// Reads it from the first source. `Err`: the source is refused, a read failed, or an allocation.
    fn load<R: Source>(alloc: Global, source: &mut R) -> Result<Self, ToolFault>
        ensures ok { IfOk result (IsReadAs spec (transition_of R.Source source.old source.new)) }
        ensures err { IfErr result (IsUnread (one spec (transition_of R.Source source.old source.new))) }
        ensures reads { IsReadWithin spec.limit (transition_of R.Source source.old source.new) };

    /// Makes it of what was read and of the union. `Err`: why there is none.
    fn make(self, alloc: Global, union: Replica) -> Result<Self::Made, ToolFault>
        ensures { IsWorked (work self union) result };

    /// Writes its text. `WriteFault` if a write fails, `Memory` if an allocation fails.
    fn write<W: Sink>(alloc: Global, made: &Self::Made, output: &mut W) -> Result<(), ToolFault>
        ensures { IsWritten W.Sink output.old output.new (tell made.now) result };
}

/// Makes what is made of the first source and of the union. `NoLog`: no input of the union names a log. `OtherLog`: one
/// names another log, or the first source does.
fn make_with<F: First>(alloc: Global, first: F, union: JoinState) -> Result<F::Made, ToolFault>
    ensures { (ls : List Loaded) → IsJoinState 2 None ls union → IsWorked (with_union F.work (first, ls)) result }
{
    let held = union.end()?;
    first.make(alloc, held)
}

/// Reads the first source in its own way, and the others as inputs; writes what is made of it and of their union. `Err`:
/// why nothing was written, or only a prefix.
pub(crate) fn write_with_union<F: First, R: Source, W: Sink>(
    alloc: Global,
    sources: &mut [R],
    output: &mut W,
) -> Result<(), ToolFault>
    requires { 1 ≤ length sources.old }
    ensures { IsRun (first_and_others F.spec (map (source_state R.Source) sources.old) (map (source_state R.Source) sources.new))
        (with_union F.work) F.tell W.Sink output.old output.new result }
{
    let (first, others) = sources.split_at_mut(1);
    let first = &mut first[0];
    let read = F::load(alloc, first)?;
    let union = union_with(alloc, JoinState::new(alloc, None), 2, others)?;
    let made = make_with(alloc, read, union)?;
    F::write(alloc, &made, output)
}
