//! Opens the files of a request, and runs it on them.
ghost use Rattle.std.specs.Prelude.{◌≡◌, true, length, map, Err, MatchResult};
ghost use Rattle.cadf_tool.specs.Inputs.{source_state};
ghost use Rattle.cadf_tool.specs.Request.{accepts, task};
ghost use Rattle.cadf.specs.Asked.{texts, names_of, IsAccepted};
ghost use Rattle.cadf.specs.Opened.{AreOpened, IsUnopened};
ghost use Rattle.cadf.specs.Run.{IsAskedRun, IsRunOn, IsUnwrittenIfStarved};

use crate::asked::{asked_of, names_of};
use crate::opener::Opener;
use crate::stop::Stop;
use cadf_json::Sink;
use cadf_tool::{Request as Asked, ToolFault, run};
use cadf_words::Request;
use std::alloc::Global;

/// Opens the files of these names in their order. `ReadFault` has the number of the first that can't be opened, from 1;
/// `Memory` if an allocation fails.
fn open_all<O: Opener>(
    alloc: Global,
    opener: &mut O,
    names: &[&str],
) -> Result<Vec<O::File>, ToolFault>
    ensures { MatchResult result
        (λ files. AreOpened (O.state opener.old) (O.state opener.new) (texts names.now) (map (source_state O.File.Source) files.items))
        (IsUnopened (O.state opener.old) (O.state opener.new) (texts names.now)) }
{
    let mut files = Vec::new(alloc);
    for name in names {
        let Ok(file) = opener.open(name) else {
            return Err(ToolFault::ReadFault(files.len() + 1));
        };
        files.push(file)?;
    }
    Ok(files)
}

/// Runs what the request asks on its files, which are all opened before one is read.
fn run_asked<O: Opener, W: Sink>(
    alloc: Global,
    asked: &Asked,
    request: &Request<'_>,
    opener: &mut O,
    output: &mut W,
) -> Result<(), ToolFault>
    requires { accepts asked.now (length (names_of request.now)) ≡ true }
    ensures run { IsAskedRun asked.now (names_of request.now) (O.state opener.old) (O.state opener.new) O.File.Source W.Sink
        output.old output.new result }
    ensures memory { (task asked.now).is_whole ≡ true → result ≡ Err ToolFault.Memory → output.new ≡ output.old }
{
    let Ok(names) = names_of(alloc, request) else {
        return Err(ToolFault::Memory);
    };
    let mut files = open_all(alloc, opener, &names)?;
    run(alloc, asked, &mut files, output)
}

/// Runs the request. `Err`: a refused argument, then a file that can't be opened, then the fault of the run.
pub(crate) fn run_request<O: Opener, W: Sink>(
    alloc: Global,
    request: &Request<'_>,
    opener: &mut O,
    output: &mut W,
) -> Result<(), Stop>
    requires { IsAccepted request.now }
    ensures run { IsRunOn request.now (O.state opener.old) (O.state opener.new) O.File.Source W.Sink output.old output.new result }
    ensures memory { IsUnwrittenIfStarved request.now output.old output.new result }
{
    let asked = match asked_of(alloc, request) {
        Ok(asked) => asked,
        Err(fault) => return Err(Stop::Argument(fault)),
    };
    run_asked(alloc, &asked, request, opener, output).map_err(Stop::Tool)
}
