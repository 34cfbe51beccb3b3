//! What a call answers: a status, and a text in the caller's buffer.
ghost use Rattle.std.specs.Prelude.{◌≡◌, ◌≤◌, ◌⊎◌, length as length_of, true, pos, Ok, Err, IfOk, IfErr, IsErrAnd, ℕ, List, Result};
ghost use Rattle.cadf_arguments.specs.Arguments.{argument_status_of};
ghost use Rattle.cadf_arguments.specs.declared.fault.ArgumentFault.{ArgumentFault};
ghost use Rattle.cadf_tool.specs.Faults.{status_of};
ghost use Rattle.cadf_tool.specs.Request.{accepts};
ghost use Rattle.cadf_tool.specs.declared.request.Request.{Request};
ghost use Rattle.cadf_memory.specs.Handed.{IsHandedOut};
ghost use Rattle.cadf_memory.specs.Made.{is_of_memory};
ghost use Rattle.cadf_memory.specs.Memory.{bytes_in};
ghost use Rattle.cadf_c.specs.Arguments.{IsAsked};
ghost use Rattle.cadf_c.specs.Statuses.{IsCall};

use arrayvec::ArrayString;
use cadf_arguments::ArgumentFault;
use cadf_memory::{CadfBytes, over};
use cadf_tool::{Request, ToolFault, status};
use std::alloc::Global;
use std::fmt::Write;

/// Copies what of the text fits, and sets `length` to that of the whole text.
fn hand_out(text: &[u8], output: &mut [u8], length: &mut usize)
    ensures { IsHandedOut (λ t. t ≡ text.now) output.old output.new length.new }
{
    let count = text.len().min(output.len());
    output[..count].copy_from_slice(&text[..count]);
    *length = text.len();
}

/// Answers that an argument is refused, or that there was no memory.
#[tactic(auto, using(crate::proofs::Statuses::refusal_told))]
pub(crate) fn refuse(fault: ArgumentFault, output: &mut [u8], length: &mut usize) -> i32
    ensures status { result ≡ pos (argument_status_of fault) }
    ensures told { (asked : Result Request ArgumentFault) (inputs : List (List ℕ)) → IsAsked asked (Err fault)
        → IsCall asked inputs result output.old output.new length.new }
{
    hand_out(fault.text().as_bytes(), output, length);
    i32::from(fault.status())
}

/// Answers how long the text is that an engine wrote, or hands out its fault. The text of a fault has at most 128 bytes.
#[tactic(auto, using(crate::proofs::Statuses::one_or_four))]
fn answer(made: Result<usize, ToolFault>, output: &mut [u8], length: &mut usize) -> i32
    requires { IfErr made (λ fault. is_of_memory fault ≡ true) }
    ensures written { result ≡ pos 0 → (made ≡ Ok length.new) × (output.new ≡ output.old) }
    ensures refused { result ≡ pos 1 → IsErrAnd made (λ fault. status_of fault ≡ 1) }
    ensures only { (result ≡ pos 0) ⊎ (result ≡ pos 1) ⊎ (result ≡ pos 4) }
    ensures short { (result ≡ pos 0) ⊎ (length.new ≤ 128) }
{
    match made {
        Ok(written) => {
            *length = written;
            0
        }
        Err(fault) => {
            let mut text = ArrayString::<128>::new();
            let _ = write!(text, "{fault}");
            hand_out(text.as_str().as_bytes(), output, length);
            i32::from(status(&fault))
        }
    }
}

/// Runs the request over the inputs, and answers it.
#[tactic(auto, using(crate::proofs::Statuses::run_told))]
pub(crate) fn call(
    alloc: Global,
    request: Request,
    inputs: &[CadfBytes<'_>],
    output: &mut [u8],
    length: &mut usize,
) -> i32
    requires { accepts request (length_of inputs.now) ≡ true }
    ensures { IsCall (Ok request) (bytes_in inputs.now) result output.old output.new length.new }
{
    answer(over(alloc, &request, inputs, output), output, length)
}

/// Does the same with the request that is given, or answers that an argument is refused.
pub(crate) fn call_given(
    alloc: Global,
    given: Result<Request, ArgumentFault>,
    inputs: &[CadfBytes<'_>],
    output: &mut [u8],
    length: &mut usize,
) -> i32
    requires { IfOk given (λ q. accepts q (length_of inputs.now) ≡ true) }
    ensures { (asked : Result Request ArgumentFault) → IsAsked asked given → IsCall asked (bytes_in inputs.now) result output.old output.new length.new }
{
    match given {
        Ok(request) => call(alloc, request, inputs, output, length),
        Err(fault) => refuse(fault, output, length),
    }
}
