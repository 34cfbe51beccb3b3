//! Why a command failed, and how that is reported.
ghost use Rattle.std.specs.Prelude.{Err};
ghost use Rattle.std.specs.Process.{exit_status};
ghost use Rattle.cadf.specs.Ended.{IsEnded};

use crate::console::Console;
use cadf_arguments::ArgumentFault;
use cadf_tool::{ToolFault, status};
use std::process::ExitCode;
use thiserror::Error;

/// Why a command failed.
#[derive(Debug, Drop, Error)]
pub(crate) enum Stop {
    #[error(transparent)]
    Tool(#[from] ToolFault),
    /// A name, a number or a letter is refused.
    #[error(transparent)]
    Argument(ArgumentFault),
}

/// Prints why the command failed, and returns the exit status.
pub(crate) fn report<C: Console>(console: &mut C, stop: &Stop) -> ExitCode
    ensures { IsEnded (Err stop.now) (C.printed console.old) (C.printed console.new) (exit_status result) }
{
    let _ = console.print_fault(stop);
    ExitCode::from(match stop {
        Stop::Tool(fault) => status(fault),
        Stop::Argument(fault) => fault.status(),
    })
}
