//! The engine of `rehearse`: simulates the schedule of a script, and writes the state of each site.
ghost use Rattle.std.specs.Prelude.{◌≡◌, length, map, IfOk, IfErr, Ok, Err, string_bytes};
ghost use Rattle.cadf_tool.specs.Rehearse.{bytes_spec, script_spec, turns_of, replicas_after, final_sites as played_of};
ghost use Rattle.cadf_tool.specs.Inputs.{source_state};
ghost use Rattle.cadf_tool.specs.Request.{first_as};
ghost use Rattle.cadf_tool.specs.Run.{one, transition_of, IsReadAs, IsReadWithin, IsUnread, IsExpected, IsWorked, IsWritten, IsRun};
ghost use Rattle.cadf_tool.specs.Sites.{is_same, place_of as place_in, sites_text as text_of_sites};

use crate::FILE_LIMIT;
use crate::fault::ToolFault;
use crate::input::LoadFault;
use cadf_event::Name;
use cadf_json::{Memory, ReadLimitFault, Sink, Source, read_to_limit, write_all};
use cadf_rehearsal::{RehearseFault, Turn, rehearse};
use cadf_script::{ScriptFault, read_script};
use cadf_set::Replica;
use std::alloc::Global;

/// Reads the bytes of a script. `Err`: it is too large, a read failed, or an allocation failed.
fn bytes_of<R: Source>(alloc: Global, script: &mut R) -> Result<Vec<u8>, ToolFault>
    ensures ok { IfOk result (λ v. IsReadAs bytes_spec (transition_of R.Source script.old script.new) v.items) }
    ensures err { IfErr result (IsUnread (one script_spec (transition_of R.Source script.old script.new))) }
    ensures reads { IsReadWithin FILE_LIMIT (transition_of R.Source script.old script.new) }
{
    match read_to_limit(alloc, script, FILE_LIMIT as usize) {
        Ok(bytes) => Ok(bytes),
        Err(ReadLimitFault::TooLarge) => Err(ToolFault::Input(1, LoadFault::TooLarge)),
        Err(ReadLimitFault::ReadFault) => Err(ToolFault::ReadFault(1)),
        Err(ReadLimitFault::Memory) => Err(ToolFault::Memory),
    }
}

/// Reads the turns of a script, after all of its bytes. `Err`: the script is refused, or a line of it is no turn.
fn turns<R: Source>(alloc: Global, script: &mut R) -> Result<Vec<Turn>, ToolFault>
    ensures ok { IfOk result (λ v. IsExpected (one script_spec (transition_of R.Source script.old script.new)) turns_of (Ok v.items)) }
    ensures err { IfErr result (λ f. IsExpected (one script_spec (transition_of R.Source script.old script.new)) turns_of (Err f)) }
{
    let bytes = bytes_of(alloc, script)?;
    match read_script(alloc, &bytes) {
        Ok(turns) => Ok(turns),
        Err(ScriptFault::Line(line)) => Err(ToolFault::Script(line)),
        Err(ScriptFault::Memory) => Err(ToolFault::Memory),
    }
}

/// Simulates the turns, and returns the replicas of the sites after the last. `Err`: the first turn that fails.
fn left(alloc: Global, log: &Name, sites: usize, turns: &[Turn]) -> Result<Vec<Replica>, ToolFault>
    ensures ok { IfOk result (λ v. IsWorked (replicas_after log.now sites turns.now) (Ok v.items)) }
    ensures err { IfErr result (λ f. IsWorked (replicas_after log.now sites turns.now) (Err f)) }
{
    match rehearse(alloc, log, sites, turns) {
        Ok(left) => Ok(left),
        Err(RehearseFault::Memory) => Err(ToolFault::Memory),
        Err(fault) => Err(ToolFault::Rehearse(fault)),
    }
}

/// Returns whether both have the same log and the same atoms.
fn are_same(site: &Replica, other: &Replica) -> bool
    ensures { result ≡ is_same site.now other.now }
{
    site.same(other)
}

/// Counts the sites before the first that is the same as `site`.
fn place_of(site: &Replica, sites: &[Replica]) -> usize
    ensures { result ≡ place_in site.now sites.now }
{
    for (place, other) in sites.iter().enumerate() {
        if are_same(site, other) {
            return place;
        }
    }
    sites.len()
}

/// Formats the lines of all sites.
#[tactic(auto, unfolding(crate::specs::Sites::sites_text))]
fn lines(alloc: Global, sites: &[Replica]) -> Result<String, Memory>
    ensures { IfOk result (λ text. string_bytes text ≡ text_of_sites sites.now) }
{
    let mut text = String::new(alloc);
    for (i, site) in sites.iter().enumerate() {
        let atoms = site.atom_count();
        let same = place_of(site, sites);
        let line = format!(in alloc; "site {i} atoms {atoms} as {same}\n")?;
        text.push_str(line.as_str())?;
    }
    Ok(text)
}

/// Writes the lines of all sites. `Memory` if an allocation fails, before anything is written. `WriteFault` if a write
/// fails.
fn write_lines<W: Sink>(alloc: Global, sites: &[Replica], output: &mut W) -> Result<(), ToolFault>
    ensures written { IsWritten W.Sink output.old output.new (text_of_sites sites.now) result }
    ensures memory { result ≡ Err ToolFault.Memory → output.new ≡ output.old }
{
    let text = lines(alloc, sites)?;
    write_all(output, text.as_bytes()).or(Err(ToolFault::WriteFault))
}

/// Simulates the schedule of a script with `sites` sites of the log, and writes a line for each site from 0: `site I
/// atoms N as J`, in which J is the least site with the same atoms. `Err`: why nothing was written, or only a prefix.
pub fn run_rehearse<R: Source, W: Sink>(
    alloc: Global,
    log: &Name,
    sites: usize,
    script: &mut R,
    output: &mut W,
) -> Result<(), ToolFault>
    ensures final_sites { IsRun (one script_spec (transition_of R.Source script.old script.new)) (played_of log.now sites)
        text_of_sites W.Sink output.old output.new result }
    // All lines are in memory before they are written.
    ensures memory { result ≡ Err ToolFault.Memory → output.new ≡ output.old }
{
    let turns = turns(alloc, script)?;
    let left = left(alloc, log, sites, turns.as_slice())?;
    write_lines(alloc, left.as_slice(), output)
}

/// Writes the same of the only source, a script.
pub(crate) fn write_rehearsal<R: Source, W: Sink>(
    alloc: Global,
    log: &Name,
    sites: usize,
    sources: &mut [R],
    output: &mut W,
) -> Result<(), ToolFault>
    requires { length sources.old ≡ 1 }
    ensures final_sites { IsRun (first_as 1 script_spec (map (source_state R.Source) sources.old) (map (source_state R.Source) sources.new))
        (played_of log.now sites) text_of_sites W.Sink output.old output.new result }
    ensures memory { result ≡ Err ToolFault.Memory → output.new ≡ output.old }
{
    run_rehearse(alloc, log, sites, &mut sources[0], output)
}
