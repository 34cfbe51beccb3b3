//! What a request of the command line asks of its files, and the names of these.
ghost use Rattle.std.specs.Prelude.{◌≡◌, ◌++◌, IfOk};
ghost use Rattle.cadf.specs.Asked.{asked_by, texts, names_of, IsRead};

use crate::given::{cells_given, letter_given, log_given, place_given, salt_given, sites_given};
use cadf_arguments::{ArgumentFault, read_key, read_log, read_unit};
use cadf_tool::Request as Asked;
use cadf_words::Request;
use std::alloc::{AllocError, Global};

/// Returns what the request asks of its files. `Err`: the first of its arguments that is refused, or `Memory`.
pub(crate) fn asked_of(alloc: Global, request: &Request<'_>) -> Result<Asked, ArgumentFault>
    ensures { IsRead (asked_by request.now) result }
{
    Ok(match request {
        Request::Join { log, .. } => {
            let log = log_given(alloc, *log)?;
            Asked::Join { log }
        }
        Request::Split { by, log, .. } => {
            let unit = read_unit(by.as_bytes())?;
            let log = log_given(alloc, *log)?;
            Asked::Split { unit, log }
        }
        Request::Missing { from, .. } => Asked::Missing { from: from.len() },
        Request::MissingBy { .. } => Asked::MissingBy,
        Request::Inventory { .. } => Asked::Inventory,
        Request::Sketch { cells, salt, .. } => {
            let cells = cells_given(*cells)?;
            let salt = salt_given(*salt)?;
            Asked::Sketch { cells, salt }
        }
        Request::MissingBySketch { .. } => Asked::MissingBySketch,
        Request::Seal { .. } => Asked::Seal,
        Request::Prove { keys: false, .. } => Asked::Prove,
        Request::Prove { keys: true, .. } => Asked::ProveKeys,
        Request::Verify {
            keys: false,
            absent,
            ..
        } => {
            let absent = *absent;
            Asked::Verify { absent }
        }
        Request::Verify {
            keys: true,
            absent,
            ..
        } => {
            let absent = *absent;
            Asked::VerifyKeys { absent }
        }
        Request::Sealed { .. } => Asked::Sealed,
        Request::Growth { .. } => Asked::Growth,
        Request::Grew { erased, .. } => {
            let erased = erased.is_some();
            Asked::Grew { erased }
        }
        Request::Omit { .. } => Asked::Omit,
        Request::Rule {
            letter,
            key,
            place,
            ..
        } => {
            let letter = letter_given(letter)?;
            let key = read_key(alloc, key)?;
            let place = place_given(place)?;
            Asked::Rule { letter, key, place }
        }
        Request::Rehearse { log, sites, .. } => {
            let log = read_log(alloc, log)?;
            let sites = sites_given(sites)?;
            Asked::Rehearse { log, sites }
        }
        Request::Show { conflicts, .. } => {
            let conflicts = *conflicts;
            Asked::Show { conflicts }
        }
        Request::Check { .. } => Asked::Check,
    })
}

/// Copies both lists of names, one after the other. `Err` if an allocation fails.
fn both<'a>(alloc: Global, first: &[&'a str], then: &[&'a str]) -> Result<Vec<&'a str>, AllocError>
    ensures { IfOk result (λ names. texts names.items ≡ texts first.now ++ texts then.now) }
{
    let mut names = Vec::from_slice(alloc, first)?;
    names.extend_from_slice(then)?;
    Ok(names)
}

/// Lists the names of the request's files, in the order in which they are opened. `Err` if an allocation fails.
pub(crate) fn names_of<'a>(alloc: Global, request: &Request<'a>) -> Result<Vec<&'a str>, AllocError>
    ensures { IfOk result (λ names. texts names.items ≡ names_of request.now) }
{
    match request {
        Request::Join { files, .. } => both(alloc, files, &[]),
        Request::Split { files, .. } => both(alloc, files, &[]),
        Request::Missing { from, to } => both(alloc, from, to),
        Request::MissingBy { from, inventory } => both(alloc, from, &[*inventory]),
        Request::Inventory { files } => both(alloc, files, &[]),
        Request::Sketch { files, .. } => both(alloc, files, &[]),
        Request::MissingBySketch { from, sketch } => both(alloc, from, &[*sketch]),
        Request::Seal { files } => both(alloc, files, &[]),
        Request::Prove { facts, files, .. } => both(alloc, &[*facts], files),
        Request::Verify {
            seal,
            facts,
            proof,
            ..
        } => both(alloc, &[*seal, *facts, *proof], &[]),
        Request::Sealed { files } => both(alloc, files, &[]),
        Request::Growth { sealed, files } => both(alloc, &[*sealed], files),
        Request::Grew {
            erased: None,
            old,
            new,
            proof,
        } => both(alloc, &[*old, *new, *proof], &[]),
        Request::Grew {
            erased: Some(list),
            old,
            new,
            proof,
        } => both(alloc, &[*old, *new, *proof], &[*list]),
        Request::Omit { list, files } => both(alloc, &[*list], files),
        Request::Rule { files, .. } => both(alloc, files, &[]),
        Request::Rehearse { script, .. } => both(alloc, &[*script], &[]),
        Request::Show { files, .. } => both(alloc, files, &[]),
        Request::Check { files } => both(alloc, files, &[]),
    }
}
