//! The engine of `grew`: how one sealed set came of another, by a proof under both seals.
ghost use Rattle.std.specs.Prelude.{◌≡◌, true, if◌then◌else◌, length, map, Ok, Err};
ghost use Rattle.cadf_tool.specs.Grew.{growth_line};
ghost use Rattle.cadf_tool.specs.Inputs.{source_state};
ghost use Rattle.cadf_tool.specs.ModelInput.{seal_spec, proof_spec};
ghost use Rattle.cadf_tool.specs.Request.{list_if, seals_proof_list, three};
ghost use Rattle.cadf_tool.specs.Run.{IsExpected, IsRun, IsToldBy, IsValueOf};

use crate::fault::{ToolFault, ungrown};
use crate::inputs::load_model;
use cadf_evidence::{Proof, Seal, grown};
use cadf_json::{Sink, Source, write_all};
use cadf_listed::{Erased, Listed};
use std::alloc::Global;

/// Reads two seals and a proof. `Err`: one of them is refused, a read failed, or an allocation.
fn load_sealed<R: Source>(
    alloc: Global,
    sources: &mut [R],
) -> Result<(Seal, (Seal, Proof)), ToolFault>
    requires { length sources.old ≡ 3 }
    ensures { IsExpected (three seal_spec seal_spec proof_spec (map (source_state R.Source) sources.old) (map (source_state R.Source) sources.new)) Ok result }
{
    let (earlier, others) = sources.split_at_mut(1);
    let (later, proof) = others.split_at_mut(1);
    let (earlier, later, proof) = (&mut earlier[0], &mut later[0], &mut proof[0]);
    let earlier = load_model(alloc, 1, earlier)?;
    let later = load_model(alloc, 2, later)?;
    let proof = load_model(alloc, 3, proof)?;
    Ok((earlier, (later, proof)))
}

/// Reads the erased list, which is input 4, if there is one. `Err`: it is refused, a read failed, or an allocation.
fn load_list<R: Source>(
    alloc: Global,
    erased: bool,
    sources: &mut [R],
) -> Result<Option<Listed<Erased>>, ToolFault>
    requires { erased ≡ true → length sources.old ≡ 1 }
    ensures { IsExpected (list_if erased (map (source_state R.Source) sources.old) (map (source_state R.Source) sources.new)) Ok result }
{
    if !erased {
        return Ok(None);
    }
    let source = &mut sources[0];
    Ok(Some(load_model(alloc, 4, source)?))
}

/// Writes the line that says how the later sealed set came of the earlier one. `Ungrown`: the proof is refused, or something
/// is gone. `WriteFault` if a write fails, `Memory` if an allocation fails.
fn tell_growth<W: Sink>(
    alloc: Global,
    earlier: &Seal,
    later: &Seal,
    proof: &Proof,
    list: &Option<Listed<Erased>>,
    output: &mut W,
) -> Result<(), ToolFault>
    ensures told { IsToldBy (IsValueOf growth_line ((earlier.now, (later.now, proof.now)), list.now)) (λ text. text)
        W.Sink output.old output.new result }
    ensures memory { result ≡ Err ToolFault.Memory → output.new ≡ output.old }
{
    let line = match grown(alloc, earlier, later, proof, list.as_ref()) {
        Ok(line) => line,
        Err(fault) => return Err(ungrown(fault)),
    };
    write_all(output, &line).or(Err(ToolFault::WriteFault))
}

/// Writes a line that says how many facts the sealed set of the second source has more than that of the first, if the third,
/// a proof, shows under both seals that it has all others; with `erased` also how many fewer, if they are in the fourth, an
/// erased list. All are read as such files, whatever bytes they begin with. `Err`: why nothing was written, or only a prefix.
pub(crate) fn write_growth<R: Source, W: Sink>(
    alloc: Global,
    erased: bool,
    sources: &mut [R],
    output: &mut W,
) -> Result<(), ToolFault>
    requires { length sources.old ≡ (if erased then 4 else 3) }
    ensures growth { IsRun (seals_proof_list erased (map (source_state R.Source) sources.old) (map (source_state R.Source) sources.new))
        growth_line (λ text. text) W.Sink output.old output.new result }
    // The line is made before it is written.
    ensures memory { result ≡ Err ToolFault.Memory → output.new ≡ output.old }
{
    let (three, list) = sources.split_at_mut(3);
    let sealed = load_sealed(alloc, three)?;
    let list = load_list(alloc, erased, list)?;
    tell_growth(alloc, &sealed.0, &sealed.1.0, &sealed.1.1, &list, output)
}
