//! The run of a request on bytes in memory.
ghost use Rattle.std.specs.Prelude.{◌≡◌, length, true, IfOk, IfErr};
ghost use Rattle.cadf_tool.specs.Request.{accepts};
ghost use Rattle.cadf_memory.specs.Memory.{bytes_in};
ghost use Rattle.cadf_memory.specs.Handed.{IsHandedOut};
ghost use Rattle.cadf_memory.specs.Made.{IsMadeFor, IsFirstFor, is_of_memory};

use crate::buffer::Buffer;
use crate::slice_source::{CadfBytes, sources};
use cadf_tool::{Request, ToolFault, run};
use std::alloc::Global;

/// Writes what the request asks of the inputs as far as there is room, and returns the length of the text. `Err`: the
/// first refusal, or `Memory`.
pub fn over(
    alloc: Global,
    request: &Request,
    inputs: &[CadfBytes<'_>],
    output: &mut [u8],
) -> Result<usize, ToolFault>
    requires { accepts request.now (length inputs.now) ≡ true }
    ensures ok { IfOk result (IsHandedOut (IsMadeFor request.now (bytes_in inputs.now)) output.old output.new) }
    ensures err { IfErr result (IsFirstFor request.now (bytes_in inputs.now)) }
    ensures only { IfErr result (λ fault. is_of_memory fault ≡ true) }
{
    let mut sources = sources(alloc, inputs)?;
    let mut buffer = Buffer::new(output);
    let run = run(alloc, request, &mut sources, &mut buffer);
    buffer.told(run)
}
