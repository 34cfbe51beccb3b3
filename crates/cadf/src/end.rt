//! How the command ends: its output, what is printed beside it, and the exit status.
ghost use Rattle.std.specs.Prelude.{map};
ghost use Rattle.std.specs.Process.{exit_status};
ghost use Rattle.cadf.specs.Asked.{IsAccepted};
ghost use Rattle.cadf.specs.Ended.{IsCommand, IsEnded, IsReplied, IsRequested, IsRunOut};

use crate::console::Console;
use crate::opener::Opener;
use crate::output::Output;
use crate::runner::run_request;
use crate::stop::{Stop, report};
use cadf_tool::{OverLimit, ToolFault};
use cadf_words::{Reply, Request, parse};
use std::alloc::Global;
use std::process::ExitCode;

/// The exit status if the command line is refused.
const REFUSED: u8 = 2;

/// Runs the request, and ends the output. Returns a report if it is larger than an input may be. `Err`: why the run
/// failed, or `WriteFault` if a write did at the end.
fn run_out<O: Opener, W: Output + Drop>(
    alloc: Global,
    request: &Request<'_>,
    opener: &mut O,
    output: W,
) -> Result<Option<OverLimit>, Stop>
    requires { IsAccepted request.now }
    ensures { IsRunOut request.now (O.state opener.old) (O.state opener.new) O.File.Source W.Sink W.ends output result }
{
    let mut output = output;
    run_request(alloc, request, opener, &mut output)?;
    match output.end() {
        Ok(report) => Ok(report),
        Err(_) => Err(Stop::Tool(ToolFault::WriteFault)),
    }
}

/// Runs the request, prints a fault or that its output is too large, and returns the exit status.
fn run<O: Opener, W: Output + Drop, C: Console>(
    alloc: Global,
    request: &Request<'_>,
    opener: &mut O,
    output: W,
    console: &mut C,
) -> ExitCode
    requires { IsAccepted request.now }
    ensures { IsRequested request.now (O.state opener.old) (O.state opener.new) O.File.Source W.Sink W.ends output
        (C.printed console.old) (C.printed console.new) (exit_status result) }
{
    match run_out(alloc, request, opener, output) {
        Ok(Some(over_limit)) => {
            let _ = console.print_report(&over_limit);
            ExitCode::SUCCESS
        }
        Ok(None) => ExitCode::SUCCESS,
        Err(stop) => report(console, &stop),
    }
}

/// Prints what the command line asked for, or why it is refused, and returns the exit status.
fn answer<C: Console>(console: &mut C, reply: &Reply) -> ExitCode
    ensures { IsReplied reply.now (C.printed console.old) (C.printed console.new) (exit_status result) }
{
    match reply {
        Reply::Memory => report(console, &Stop::Tool(ToolFault::Memory)),
        Reply::Help(message) => match console.print_message(message) {
            Ok(()) => ExitCode::SUCCESS,
            Err(_) => report(console, &Stop::Tool(ToolFault::WriteFault)),
        },
        Reply::Refused(message) => {
            let _ = console.print_message(message);
            ExitCode::from(REFUSED)
        }
    }
}

/// Does what the words ask for, of which the first is the program's name, and returns the exit status.
pub(crate) fn end<O: Opener, W: Output + Drop, C: Console>(
    alloc: Global,
    words: &[String],
    opener: &mut O,
    output: W,
    console: &mut C,
) -> ExitCode
    ensures { IsCommand (map (λ s. s.bytes.items) words.now) (O.state opener.old) (O.state opener.new) O.File.Source W.Sink W.ends output
        (C.printed console.old) (C.printed console.new) (exit_status result) }
{
    match parse(alloc, words) {
        Ok(request) => run(alloc, &request, opener, output, console),
        Err(reply) => answer(console, &reply),
    }
}
