//! Requests of arguments as C hands them over. `Err`: the first argument that is refused, or `Memory`.
ghost use Rattle.std.specs.Prelude.{◌≡◌, ℕ, ◌∷◌, true, Ok, IfOk};
ghost use Rattle.cadf_arguments.specs.declared.fault.ArgumentFault.{ArgumentFault};
ghost use Rattle.cadf_memory.specs.Memory.{bytes_in};
ghost use Rattle.cadf_tool.specs.Request.{accepts};
ghost use Rattle.cadf_c.specs.Arguments.{log_given, spells_name, is_log, unless, join_asked, split_asked, ruling_asked, rehearsal_asked, sketch_asked, IsAsked};

use cadf_arguments::{
    ArgumentFault, check_cells, check_letter, check_place, check_salt, check_sites, read_name,
    read_unit,
};
use cadf_memory::CadfBytes;
use cadf_tool::{Name, Request};
use std::alloc::{AllocError, Global};

/// Reads the bytes as a name. `refusal`: they are none, or not UTF-8.
fn name_of_bytes(alloc: Global, bytes: &[u8], refusal: ArgumentFault) -> Result<Name, ArgumentFault>
    ensures { IsAsked (unless (spells_name bytes.now) refusal (Ok bytes.now)) result }
{
    match str::from_utf8(bytes) {
        Ok(text) => read_name(alloc, text, refusal),
        Err(_) => Err(refusal),
    }
}

/// Reads the bytes as the identifier of a log. No bytes are no log.
fn log_if_any(alloc: Global, bytes: &[u8]) -> Result<Option<Name>, ArgumentFault>
    ensures { IsAsked (unless (is_log bytes.now) ArgumentFault.LogName (Ok (log_given bytes.now))) result }
{
    if bytes.is_empty() {
        return Ok(None);
    }
    Ok(Some(name_of_bytes(alloc, bytes, ArgumentFault::LogName)?))
}

/// Returns what is asked of `join`.
pub(crate) fn join_of(alloc: Global, log: &[u8]) -> Result<Request, ArgumentFault>
    ensures asked { IsAsked (join_asked log.now) result }
    ensures accepts { IfOk result (λ q. (count : ℕ) → accepts q count ≡ true) }
{
    let log = log_if_any(alloc, log)?;
    Ok(Request::Join { log })
}

/// Returns what is asked of `split`; its unit and its log are checked in this order.
pub(crate) fn split_of(alloc: Global, by: &[u8], log: &[u8]) -> Result<Request, ArgumentFault>
    ensures asked { IsAsked (split_asked by.now log.now) result }
    ensures accepts { IfOk result (λ q. (count : ℕ) → accepts q count ≡ true) }
{
    let unit = read_unit(by)?;
    let log = log_if_any(alloc, log)?;
    Ok(Request::Split { unit, log })
}

/// Returns what is asked of `rule`; its letter, its key and its place are checked in this order.
pub(crate) fn ruling_of(
    alloc: Global,
    letter: u8,
    key: &[u8],
    place: u64,
) -> Result<Request, ArgumentFault>
    ensures asked { IsAsked (ruling_asked letter key.now place) result }
    ensures accepts { IfOk result (λ q. accepts q 1 ≡ true) }
{
    let letter = check_letter(char::from(letter))?;
    let key = name_of_bytes(alloc, key, ArgumentFault::Key)?;
    let place = check_place(place)?;
    Ok(Request::Rule { letter, key, place })
}

/// Returns what is asked of `rehearse`; its log and its number of sites are checked in this order.
pub(crate) fn rehearsal_of(alloc: Global, log: &[u8], sites: u64) -> Result<Request, ArgumentFault>
    ensures asked { IsAsked (rehearsal_asked log.now sites) result }
    ensures accepts { IfOk result (λ q. accepts q 1 ≡ true) }
{
    let log = name_of_bytes(alloc, log, ArgumentFault::LogName)?;
    let sites = check_sites(sites)?;
    Ok(Request::Rehearse { log, sites })
}

/// Returns what is asked of `sketch`; its cells and its salt, of which 0 is none, are checked in this order.
pub(crate) fn sketch_of(cells: u64, salt: u64) -> Result<Request, ArgumentFault>
    ensures asked { IsAsked (sketch_asked cells salt) result }
    ensures accepts { IfOk result (λ q. accepts q 1 ≡ true) }
{
    let cells = (cells != 0).then(|| check_cells(cells)).transpose()?;
    let salt = (salt != 0).then(|| check_salt(salt)).transpose()?;
    Ok(Request::Sketch { cells, salt })
}

/// Lists the inputs after the first.
pub(crate) fn after<'b>(
    alloc: Global,
    first: &CadfBytes<'b>,
    inputs: &[CadfBytes<'b>],
) -> Result<Vec<CadfBytes<'b>>, AllocError>
    ensures { IfOk result (λ all. bytes_in all.items ≡ first.now.bytes.now ∷ bytes_in inputs.now) }
{
    let mut all = Vec::from_slice(alloc, &[*first])?;
    all.extend_from_slice(inputs)?;
    Ok(all)
}
