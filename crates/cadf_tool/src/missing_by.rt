//! The engine of `missing-by` and `missing-by-sketch`: what a union of inputs has beyond an inventory or a sketch, as a
//! replica file.
ghost use Rattle.std.specs.Prelude.{◌≡◌, ◌+◌, ◌≤◌, ℕ, length, map, List, None, Result, IfOk, IfErr};
ghost use Rattle.cadf_set.specs.Replica.{ReplicaModel};
ghost use Rattle.cadf_tool.specs.WrittenFile.{written_file};
ghost use Rattle.cadf_tool.specs.declared.fault.ToolFault.{ToolFault};
ghost use Rattle.cadf_tool.specs.declared.input.Loaded.{Loaded};
ghost use Rattle.cadf_tool.specs.Join.{IsOnOk};
ghost use Rattle.cadf_tool.specs.JoinState.{IsJoinState};
ghost use Rattle.cadf_tool.specs.MissingBy.{IsPartAgainst, IsMissingBy, part_by};
ghost use Rattle.cadf_tool.specs.ModelInput.{inventory_spec, sketch_spec};
ghost use Rattle.cadf_tool.specs.Inputs.{source_state};
ghost use Rattle.cadf_tool.specs.Request.{and_last};
ghost use Rattle.cadf_tool.specs.Run.{InputSpec, with_number, two, transition_of, input_spec, IsReadAs, IsReadWithin, IsUnread, IsWorkedBy, IsRun, IsRunBy};
ghost use Rattle.cadf_tool.specs.Sketch.{IsAnswerTo};

use crate::fault::ToolFault;
use crate::inputs::{load_inventory, load_model};
use crate::join::{next, union_with, write_result};
use crate::join_state::JoinState;
use cadf_json::{Sink, Source};
use cadf_set::{Inventory, Replica, ReplicaFault};
use cadf_sketch::{ReadFault, Sketch, missing_by_sketch};
use std::alloc::Global;

/// What a delta is made against, in place of inputs.
pub(crate) trait Against: Drop {
    // How a source is read as it, whatever bytes it begins with.
    ghost spec: { InputSpec Self };

    // The deltas of a replica against it, and the refusals, if its source has that number.
    ghost allows: { ℕ → Self → ReplicaModel → Result ReplicaModel ToolFault → Type 0 };

    /// Reads it from the source of that number. `Err`: the source is refused, a read failed, or an allocation.
    fn load<R: Source>(alloc: Global, number: usize, source: &mut R) -> Result<Self, ToolFault>
        ensures ok { IfOk result (IsReadAs spec (transition_of R.Source source.old source.new)) }
        ensures err { IfErr result (IsUnread (with_number number spec (transition_of R.Source source.old source.new))) }
        ensures reads { IsReadWithin spec.limit (transition_of R.Source source.old source.new) };

    /// Returns the delta of the replica against it. `OtherLog` with its number if they are of different logs.
    fn lacked(&self, alloc: Global, number: usize, from: &Replica) -> Result<Replica, ToolFault>
        ensures { IsWorkedBy (allows number self.now from.now) result };
}

impl Against for Inventory {
    ghost spec = { inventory_spec };

    ghost allows = { IsMissingBy };

    fn load<R: Source>(alloc: Global, number: usize, source: &mut R) -> Result<Self, ToolFault> {
        load_inventory(alloc, number, source)
    }

    fn lacked(&self, _alloc: Global, number: usize, from: &Replica) -> Result<Replica, ToolFault> {
        match from.missing_by(self) {
            Ok(part) => Ok(part),
            Err(ReplicaFault::OtherLog) => Err(ToolFault::OtherLog(number)),
            Err(_) => Err(ToolFault::Memory),
        }
    }
}

impl Against for Sketch {
    ghost spec = { sketch_spec };

    ghost allows = { IsAnswerTo };

    fn load<R: Source>(alloc: Global, number: usize, source: &mut R) -> Result<Self, ToolFault> {
        load_model(alloc, number, source)
    }

    fn lacked(&self, alloc: Global, number: usize, from: &Replica) -> Result<Replica, ToolFault> {
        match missing_by_sketch(alloc, from, self) {
            Ok(part) => Ok(part),
            Err(ReadFault::OtherLog) => Err(ToolFault::OtherLog(number)),
            Err(ReadFault::TooFewCells(cells)) => Err(ToolFault::TooFewCells(number, cells)),
            Err(ReadFault::Memory) => Err(ToolFault::Memory),
        }
    }
}

/// Returns the delta of the replica against the last source, which has that number, if there are both.
fn lacked<A: Against>(
    alloc: Global,
    number: usize,
    from: &Result<Replica, ToolFault>,
    last: &Result<A, ToolFault>,
) -> Result<Replica, ToolFault>
    ensures { IsOnOk last.now (λ a. IsOnOk from.now (λ h. IsWorkedBy (A.allows number a h))) result }
{
    match (last, from) {
        (Err(fault), _) => Err(*fault),
        (Ok(_), Err(fault)) => Err(*fault),
        (Ok(last), Ok(from)) => last.lacked(alloc, number, from),
    }
}

/// Returns the delta of the union against the last source, which has that number, if it was read. `NoLog`: no input of
/// the union names a log. `OtherLog`: an input or the last source is of another log.
fn part<A: Against>(
    alloc: Global,
    number: usize,
    from: JoinState,
    last: &Result<A, ToolFault>,
) -> Result<Replica, ToolFault>
    ensures { (froms : List Loaded) → number ≡ length froms + 1 → IsJoinState 1 None froms from
        → IsOnOk last.now (λ a. IsWorkedBy (IsPartAgainst A.allows (froms, a))) result }
{
    lacked(alloc, number, &from.end(), last)
}

/// Writes the replica file of the delta of `from` against `inventory`: the least replica that has each atom whose
/// digest the inventory lacks. Inputs are counted from 1: `from` is the first. The second is read as an inventory file,
/// whatever bytes it begins with. `Err`: why nothing was written, or only a prefix.
pub fn run_missing_by<R: Source, W: Sink>(
    alloc: Global,
    from: &mut R,
    inventory: &mut R,
    output: &mut W,
) -> Result<(), ToolFault>
    ensures { IsRun (two input_spec (transition_of R.Source from.old from.new) inventory_spec (transition_of R.Source inventory.old inventory.new))
        part_by written_file W.Sink output.old output.new result }
{
    let first = next(alloc, JoinState::new(alloc, None), 1, from)?;
    let noted = load_inventory(alloc, 2, inventory);
    write_result(alloc, part(alloc, 2, first, &noted), output)
}

/// Writes the replica file of the delta of the union of all sources but the last against the last. `Err`: why nothing was
/// written, or only a prefix.
pub(crate) fn write_missing_by<A: Against, R: Source, W: Sink>(
    alloc: Global,
    sources: &mut [R],
    output: &mut W,
) -> Result<(), ToolFault>
    requires { 1 ≤ length sources.old }
    ensures { IsRunBy (and_last A.spec (map (source_state R.Source) sources.old) (map (source_state R.Source) sources.new))
        (IsPartAgainst A.allows) written_file W.Sink output.old output.new result }
{
    let number = sources.len();
    let (from, last) = sources.split_at_mut(number - 1);
    let last = &mut last[0];
    let union = union_with(alloc, JoinState::new(alloc, None), 1, from)?;
    let last = A::load(alloc, number, last);
    write_result(alloc, part(alloc, number, union, &last), output)
}
