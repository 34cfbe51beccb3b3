//! What a caller asks of a list of sources, and the one run that answers it.
ghost use Rattle.std.specs.Prelude.{◌≡◌, length, true, Err};
ghost use Rattle.cadf_tool.specs.Request.{accepts, task, IsRequestRun};

use crate::check::CheckEngine;
use crate::engine::run_union;
use crate::fault::ToolFault;
use crate::first::write_with_union;
use crate::grew::write_growth;
use crate::input::Loaded;
use crate::inventory::InventoryEngine;
use crate::join::write_join;
use crate::missing::write_missing;
use crate::missing_by::write_missing_by;
use crate::rehearse::write_rehearsal;
use crate::rule::RuleEngine;
use crate::seal::SealEngine;
use crate::sealed::SealedEngine;
use crate::show::ShowEngine;
use crate::sketch::SketchEngine;
use crate::split::write_split_file;
use crate::verify::write_verdict;
use cadf_event::Name;
use cadf_evidence::KeyList;
use cadf_json::{Sink, Source};
use cadf_listed::{Erased, Listed, Sealed};
use cadf_set::Inventory;
use cadf_sketch::{Cells, Salt, Sketch};
use cadf_split::Unit;
use std::alloc::Global;

/// What is asked of a list of sources, in the order in which they are read. A source is an input, a document or a
/// replica file, where nothing else is said.
#[derive(Drop)]
pub enum Request {
    /// The replica file of the union, under the log that is given or else the first that an input names.
    Join {
        log: Option<Name>,
    },
    /// The split file of the union by that unit; the log is that of `Join`.
    Split {
        unit: Unit,
        log: Option<Name>,
    },
    /// The delta of the union of the first `from` inputs against that of the others.
    Missing {
        from: usize,
    },
    /// The delta of the union of all sources but the last against the last, an inventory file.
    MissingBy,
    /// The inventory file of the union.
    Inventory,
    /// The sketch file of the union, with that number of cells and that salt.
    Sketch {
        cells: Option<Cells>,
        salt: Option<Salt>,
    },
    /// The delta of the union of all sources but the last against the last, a sketch file.
    MissingBySketch,
    /// The seal file of the union.
    Seal,
    /// The proof file for what the first input contributes, under the seal of the union of the others.
    Prove,
    /// The proof file for the keys of the first source, a list of keys, under the seal of the union of the others.
    ProveKeys,
    /// A line for each fact of the second of three sources, if the third, a proof file, shows under the first, a seal
    /// file, that each is in the sealed set; with `absent`, that none is.
    Verify {
        absent: bool,
    },
    /// The same for each key of the second source, a list of keys: that a fact of the sealed set has it, or none.
    VerifyKeys {
        absent: bool,
    },
    /// The sealed list of the union.
    Sealed,
    /// The proof of growth from what the first source has, a sealed list, to the union of the others.
    Growth,
    /// A line that says how the sealed set of the second source came of that of the first, by the third, a proof file; with
    /// `erased` what the fourth has, an erased list, may be gone.
    Grew {
        erased: bool,
    },
    /// The replica file of the union of all sources but the first, without what the first leaves out, an erased list.
    Omit,
    /// The replica file of the union, with a ruling for the value at `place`, from 1, of the key's values.
    Rule {
        letter: char,
        key: Name,
        place: u64,
    },
    /// A line for each of so many sites of the log after the schedule of the only source, a script.
    Rehearse {
        log: Name,
        sites: usize,
    },
    /// The log text of the union, or with `conflicts` its conflict text.
    Show {
        conflicts: bool,
    },
    /// A line with the log of the union, and the numbers of its atoms and of its conflicted keys.
    Check,
}

impl Request {
    /// Returns whether a run of the request can have so many sources.
    pub fn accepts(&self, count: usize) -> bool
        ensures { result ≡ accepts self.now count }
    {
        match self {
            Request::Missing { from } => *from < count,
            Request::MissingBy | Request::MissingBySketch => count >= 1,
            Request::Prove | Request::ProveKeys => count >= 1,
            Request::Growth | Request::Omit => count >= 1,
            Request::Grew { erased } => count == if *erased { 4 } else { 3 },
            Request::Verify { .. } | Request::VerifyKeys { .. } => count == 3,
            Request::Rehearse { .. } => count == 1,
            _ => true,
        }
    }
}

/// Reads the sources one after another, and writes what the request asks of them. Writes nothing before all sources are
/// accepted. `Err`: why nothing was written, or only a prefix. Sources are counted from 1.
pub fn run<R: Source, W: Sink>(
    alloc: Global,
    request: &Request,
    sources: &mut [R],
    output: &mut W,
) -> Result<(), ToolFault>
    requires { accepts request.now (length sources.old) ≡ true }
    ensures run { IsRequestRun request.now R.Source sources.old sources.new W.Sink output.old output.new result }
    // For some requests all memory is allocated before a byte is written.
    ensures memory { (task request.now).is_whole ≡ true → result ≡ Err ToolFault.Memory → output.new ≡ output.old }
{
    match request {
        Request::Join { log } => write_join(alloc, log, sources, output),
        Request::Split { unit, log } => write_split_file(alloc, *unit, log, sources, output),
        Request::Missing { from } => write_missing(alloc, *from, sources, output),
        Request::MissingBy => write_missing_by::<Inventory, R, W>(alloc, sources, output),
        Request::Inventory => run_union(alloc, &InventoryEngine, sources, output),
        Request::Sketch { cells, salt } => {
            let (cells, salt) = (*cells, *salt);
            run_union(alloc, &SketchEngine { cells, salt }, sources, output)
        }
        Request::MissingBySketch => write_missing_by::<Sketch, R, W>(alloc, sources, output),
        Request::Seal => run_union(alloc, &SealEngine, sources, output),
        Request::Prove => write_with_union::<Loaded, R, W>(alloc, sources, output),
        Request::ProveKeys => write_with_union::<KeyList, R, W>(alloc, sources, output),
        Request::Verify { absent } => {
            write_verdict::<Loaded, R, W>(alloc, *absent, sources, output)
        }
        Request::VerifyKeys { absent } => {
            write_verdict::<KeyList, R, W>(alloc, *absent, sources, output)
        }
        Request::Sealed => run_union(alloc, &SealedEngine, sources, output),
        Request::Growth => write_with_union::<Listed<Sealed>, R, W>(alloc, sources, output),
        Request::Grew { erased } => write_growth(alloc, *erased, sources, output),
        Request::Omit => write_with_union::<Listed<Erased>, R, W>(alloc, sources, output),
        Request::Rule { letter, key, place } => {
            let (letter, place) = (*letter, *place);
            run_union(alloc, &RuleEngine { letter, key, place }, sources, output)
        }
        Request::Rehearse { log, sites } => write_rehearsal(alloc, log, *sites, sources, output),
        Request::Show { conflicts } => {
            let conflicts = *conflicts;
            run_union(alloc, &ShowEngine { conflicts }, sources, output)
        }
        Request::Check => run_union(alloc, &CheckEngine, sources, output),
    }
}
