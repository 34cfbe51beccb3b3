//! Requests over bytes in memory, for C. bindings/c/cadf.h declares them and says what each caller owes.
#![tactic(auto)]

ghost use Rattle.std.specs.Prelude.{◌≡◌, [], ◌∷◌, false, true, Ok};
ghost use Rattle.cadf_memory.specs.Memory.{bytes_in};
ghost use Rattle.cadf_tool.specs.declared.request.Request.TheVariants as ask;
ghost use Rattle.cadf_c.specs.Statuses.{IsCall};
ghost use Rattle.cadf_c.specs.Arguments.{is_given, if_given, join_asked, proof_asked, split_asked, ruling_asked, rehearsal_asked, sketch_asked, verdict_asked};

mod arguments;
mod output;

use crate::arguments::{after, join_of, rehearsal_of, ruling_of, sketch_of, split_of};
use crate::output::{call, call_given, refuse};
use cadf_arguments::ArgumentFault;
pub use cadf_memory::CadfBytes;
use cadf_tool::Request;
use std::alloc::Global;

/// The version of the command, which `cadf --version` prints.
const MAJOR: u32 = 0;

const MINOR: u32 = 1;

const PATCH: u32 = 0;

/// Returns the version: 65,536 for each major number, 256 for each minor one, and the patch.
#[unsafe(no_mangle)]
pub extern "C" fn cadf_version() -> u32 {
    MAJOR * 65_536 + MINOR * 256 + PATCH
}

/// Hands out the log of the input, or with `conflicts` the list of its conflicts.
#[unsafe(no_mangle)]
pub extern "C" fn cadf_show(
    alloc: Global,
    conflicts: bool,
    input: &CadfBytes<'_>,
    output: &mut [u8],
    length: &mut usize,
) -> i32
    ensures { IsCall (Ok (ask.Show conflicts)) (input.now.bytes.now ∷ []) result output.old output.new length.new }
{
    call(
        alloc,
        Request::Show { conflicts },
        &[*input],
        output,
        length,
    )
}

/// Hands out the line that says what the input holds.
#[unsafe(no_mangle)]
pub extern "C" fn cadf_check(
    alloc: Global,
    input: &CadfBytes<'_>,
    output: &mut [u8],
    length: &mut usize,
) -> i32
    ensures { IsCall (Ok ask.Check) (input.now.bytes.now ∷ []) result output.old output.new length.new }
{
    call(alloc, Request::Check, &[*input], output, length)
}

/// Hands out the inventory file of the input.
#[unsafe(no_mangle)]
pub extern "C" fn cadf_inventory(
    alloc: Global,
    input: &CadfBytes<'_>,
    output: &mut [u8],
    length: &mut usize,
) -> i32
    ensures { IsCall (Ok ask.Inventory) (input.now.bytes.now ∷ []) result output.old output.new length.new }
{
    call(alloc, Request::Inventory, &[*input], output, length)
}

/// Hands out the seal file of the input.
#[unsafe(no_mangle)]
pub extern "C" fn cadf_seal(
    alloc: Global,
    input: &CadfBytes<'_>,
    output: &mut [u8],
    length: &mut usize,
) -> i32
    ensures { IsCall (Ok ask.Seal) (input.now.bytes.now ∷ []) result output.old output.new length.new }
{
    call(alloc, Request::Seal, &[*input], output, length)
}

/// Returns what is asked of `prove`.
fn proving(keys: bool) -> Request
    ensures { result ≡ proof_asked keys }
{
    if keys {
        Request::ProveKeys
    } else {
        Request::Prove
    }
}

/// Hands out the proof file, under the seal of all inputs, for the facts of `facts`, which is counted first; with `keys` for
/// its keys, as a list of keys.
#[unsafe(no_mangle)]
pub extern "C" fn cadf_prove(
    alloc: Global,
    keys: bool,
    facts: &CadfBytes<'_>,
    inputs: &[CadfBytes<'_>],
    output: &mut [u8],
    length: &mut usize,
) -> i32
    ensures { IsCall (Ok (proof_asked keys)) (facts.now.bytes.now ∷ bytes_in inputs.now) result output.old output.new length.new }
{
    match after(alloc, facts, inputs) {
        Ok(all) => call(alloc, proving(keys), &all, output, length),
        Err(_) => refuse(ArgumentFault::Memory, output, length),
    }
}

/// Returns what is asked of `verify`.
fn verifying(keys: bool, absent: bool) -> Request
    ensures { result ≡ verdict_asked keys absent }
{
    if keys {
        Request::VerifyKeys { absent }
    } else {
        Request::Verify { absent }
    }
}

/// Hands out a line for each fact of `facts`, if the proof shows under the seal that each is in the sealed set; with
/// `absent`, that none is. With `keys` the same for its keys, as a list of keys.
#[unsafe(no_mangle)]
pub extern "C" fn cadf_verify(
    alloc: Global,
    keys: bool,
    absent: bool,
    seal: &CadfBytes<'_>,
    facts: &CadfBytes<'_>,
    proof: &CadfBytes<'_>,
    output: &mut [u8],
    length: &mut usize,
) -> i32
    ensures { IsCall (Ok (verdict_asked keys absent)) (seal.now.bytes.now ∷ facts.now.bytes.now ∷ proof.now.bytes.now ∷ []) result output.old output.new length.new }
{
    let inputs = [*seal, *facts, *proof];
    call(alloc, verifying(keys, absent), &inputs, output, length)
}

/// Hands out the sealed list of the input.
#[unsafe(no_mangle)]
pub extern "C" fn cadf_sealed(
    alloc: Global,
    input: &CadfBytes<'_>,
    output: &mut [u8],
    length: &mut usize,
) -> i32
    ensures { IsCall (Ok ask.Sealed) (input.now.bytes.now ∷ []) result output.old output.new length.new }
{
    call(alloc, Request::Sealed, &[*input], output, length)
}

/// Hands out the proof of growth from what the sealed list has, which is counted first, to the union of all inputs.
#[unsafe(no_mangle)]
pub extern "C" fn cadf_growth(
    alloc: Global,
    sealed: &CadfBytes<'_>,
    inputs: &[CadfBytes<'_>],
    output: &mut [u8],
    length: &mut usize,
) -> i32
    ensures { IsCall (Ok ask.Growth) (sealed.now.bytes.now ∷ bytes_in inputs.now) result output.old output.new length.new }
{
    match after(alloc, sealed, inputs) {
        Ok(all) => call(alloc, Request::Growth, &all, output, length),
        Err(_) => refuse(ArgumentFault::Memory, output, length),
    }
}

/// Hands out the answer of `grew` without a list.
fn grew(
    alloc: Global,
    earlier: &CadfBytes<'_>,
    later: &CadfBytes<'_>,
    proof: &CadfBytes<'_>,
    output: &mut [u8],
    length: &mut usize,
) -> i32
    ensures { IsCall (Ok (ask.Grew false)) (earlier.now.bytes.now ∷ later.now.bytes.now ∷ proof.now.bytes.now ∷ []) result output.old output.new length.new }
{
    let inputs = [*earlier, *later, *proof];
    let request = Request::Grew { erased: false };
    call(alloc, request, &inputs, output, length)
}

/// Hands out the answer of `grew` with a list.
fn grew_but(
    alloc: Global,
    erased: &CadfBytes<'_>,
    earlier: &CadfBytes<'_>,
    later: &CadfBytes<'_>,
    proof: &CadfBytes<'_>,
    output: &mut [u8],
    length: &mut usize,
) -> i32
    ensures { IsCall (Ok (ask.Grew true)) (earlier.now.bytes.now ∷ later.now.bytes.now ∷ proof.now.bytes.now ∷ erased.now.bytes.now ∷ []) result output.old output.new length.new }
{
    let inputs = [*earlier, *later, *proof, *erased];
    let request = Request::Grew { erased: true };
    call(alloc, request, &inputs, output, length)
}

/// Hands out a line that says how much was added, if the proof shows under both seals that the later set has all of the
/// earlier one, but for what the erased list has. A list of no bytes is none.
#[unsafe(no_mangle)]
pub extern "C" fn cadf_grew(
    alloc: Global,
    erased: &CadfBytes<'_>,
    earlier: &CadfBytes<'_>,
    later: &CadfBytes<'_>,
    proof: &CadfBytes<'_>,
    output: &mut [u8],
    length: &mut usize,
) -> i32
    ensures { IsCall (Ok (ask.Grew (is_given erased.now.bytes.now)))
        (earlier.now.bytes.now ∷ later.now.bytes.now ∷ proof.now.bytes.now ∷ if_given erased.now.bytes.now) result output.old output.new length.new }
{
    if erased.bytes.is_empty() {
        return grew(alloc, earlier, later, proof, output, length);
    }
    grew_but(alloc, erased, earlier, later, proof, output, length)
}

/// Hands out the replica file of what all inputs contribute, without what the erased list has, which is counted first.
#[unsafe(no_mangle)]
pub extern "C" fn cadf_omit(
    alloc: Global,
    list: &CadfBytes<'_>,
    inputs: &[CadfBytes<'_>],
    output: &mut [u8],
    length: &mut usize,
) -> i32
    ensures { IsCall (Ok ask.Omit) (list.now.bytes.now ∷ bytes_in inputs.now) result output.old output.new length.new }
{
    match after(alloc, list, inputs) {
        Ok(all) => call(alloc, Request::Omit, &all, output, length),
        Err(_) => refuse(ArgumentFault::Memory, output, length),
    }
}

/// Hands out the replica file of what `to` lacks of `from`.
#[unsafe(no_mangle)]
pub extern "C" fn cadf_missing(
    alloc: Global,
    from: &CadfBytes<'_>,
    to: &CadfBytes<'_>,
    output: &mut [u8],
    length: &mut usize,
) -> i32
    ensures { IsCall (Ok (ask.Missing 1)) (from.now.bytes.now ∷ to.now.bytes.now ∷ []) result output.old output.new length.new }
{
    call(
        alloc,
        Request::Missing { from: 1 },
        &[*from, *to],
        output,
        length,
    )
}

/// Hands out the replica file of what `from` has beyond the inventory.
#[unsafe(no_mangle)]
pub extern "C" fn cadf_missing_by(
    alloc: Global,
    from: &CadfBytes<'_>,
    held: &CadfBytes<'_>,
    output: &mut [u8],
    length: &mut usize,
) -> i32
    ensures { IsCall (Ok ask.MissingBy) (from.now.bytes.now ∷ held.now.bytes.now ∷ []) result output.old output.new length.new }
{
    call(alloc, Request::MissingBy, &[*from, *held], output, length)
}

/// Hands out the replica file of the input with one ruling more, for the value at that place of the key's
/// values. Places count from 1.
#[unsafe(no_mangle)]
pub extern "C" fn cadf_rule(
    alloc: Global,
    letter: u8,
    key: &CadfBytes<'_>,
    place: u64,
    input: &CadfBytes<'_>,
    output: &mut [u8],
    length: &mut usize,
) -> i32
    ensures { IsCall (ruling_asked letter key.now.bytes.now place) (input.now.bytes.now ∷ []) result output.old output.new length.new }
{
    let given = ruling_of(alloc, letter, key.bytes, place);
    call_given(alloc, given, &[*input], output, length)
}

/// Hands out a line for each site of the log after the schedule of the script.
#[unsafe(no_mangle)]
pub extern "C" fn cadf_rehearse(
    alloc: Global,
    log: &CadfBytes<'_>,
    sites: u64,
    script: &CadfBytes<'_>,
    output: &mut [u8],
    length: &mut usize,
) -> i32
    ensures { IsCall (rehearsal_asked log.now.bytes.now sites) (script.now.bytes.now ∷ []) result output.old output.new length.new }
{
    let given = rehearsal_of(alloc, log.bytes, sites);
    call_given(alloc, given, &[*script], output, length)
}

/// Hands out the sketch file of the input: of so many cells, 0 for 198, and with that salt, 0 for the input's own.
#[unsafe(no_mangle)]
pub extern "C" fn cadf_sketch(
    alloc: Global,
    cells: u64,
    salt: u64,
    input: &CadfBytes<'_>,
    output: &mut [u8],
    length: &mut usize,
) -> i32
    ensures { IsCall (sketch_asked cells salt) (input.now.bytes.now ∷ []) result output.old output.new length.new }
{
    let given = sketch_of(cells, salt);
    call_given(alloc, given, &[*input], output, length)
}

/// Hands out the replica file of what `from` has beyond the sketch.
#[unsafe(no_mangle)]
pub extern "C" fn cadf_missing_by_sketch(
    alloc: Global,
    from: &CadfBytes<'_>,
    held: &CadfBytes<'_>,
    output: &mut [u8],
    length: &mut usize,
) -> i32
    ensures { IsCall (Ok ask.MissingBySketch) (from.now.bytes.now ∷ held.now.bytes.now ∷ []) result output.old output.new length.new }
{
    call(
        alloc,
        Request::MissingBySketch,
        &[*from, *held],
        output,
        length,
    )
}

/// Hands out the replica file of what all inputs contribute, under the given log or else the first that an
/// input names. A log of no bytes is none.
#[unsafe(no_mangle)]
pub extern "C" fn cadf_join(
    alloc: Global,
    inputs: &[CadfBytes<'_>],
    log: &CadfBytes<'_>,
    output: &mut [u8],
    length: &mut usize,
) -> i32
    ensures { IsCall (join_asked log.now.bytes.now) (bytes_in inputs.now) result output.old output.new length.new }
{
    let given = join_of(alloc, log.bytes);
    call_given(alloc, given, inputs, output, length)
}

/// Hands out the split file of what all inputs contribute, by the unit that has that word. The log is that of `cadf_join`.
#[unsafe(no_mangle)]
pub extern "C" fn cadf_split(
    alloc: Global,
    by: &CadfBytes<'_>,
    inputs: &[CadfBytes<'_>],
    log: &CadfBytes<'_>,
    output: &mut [u8],
    length: &mut usize,
) -> i32
    ensures { IsCall (split_asked by.now.bytes.now log.now.bytes.now) (bytes_in inputs.now) result output.old output.new length.new }
{
    let given = split_of(alloc, by.bytes, log.bytes);
    call_given(alloc, given, inputs, output, length)
}
