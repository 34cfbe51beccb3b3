//! Calls that values of every kind have. The first word is the kind.

use crate::kinds::{Made, value_of};
use crate::lists::list;
use crate::told;
use cadf_join::{JoinMap, Memory, TextSet};
use cadf_pathset::{ChainTree, PathSet};
use calls::{Call, answer, is_refused, push_answer};
use std::alloc::Global;

/// Answers the call of that name.
pub(crate) fn answered(alloc: Global, name: &str, call: &Call) -> Result<String, Memory> {
    match call.text(1) {
        "texts" => told_of::<TextSet>(alloc, name, call),
        "map of texts" => told_of::<JoinMap<TextSet>>(alloc, name, call),
        "map of maps" => told_of::<JoinMap<JoinMap<TextSet>>>(alloc, name, call),
        "map of trees" => told_of::<JoinMap<ChainTree>>(alloc, name, call),
        "tree" => told_of::<ChainTree>(alloc, name, call),
        "paths" => told_of::<PathSet>(alloc, name, call),
        _ => answer(alloc, "no such kind", &[]),
    }
}

/// Answers the call; if an allocation failed, also what it answers when it is made again.
fn told_of<J: Made>(alloc: Global, name: &str, call: &Call) -> Result<String, Memory> {
    let mut ours: J = value_of(alloc, call.text(2))?;
    let mut line = told_of_value(alloc, name, &mut ours, call.text(3))?;
    if is_refused(line.as_str()) {
        push_answer(
            &mut line,
            told_of_value(alloc, name, &mut ours, call.text(3))?.as_str(),
        )?;
    }
    Ok(line)
}

fn told_of_value<J: Made>(
    alloc: Global,
    name: &str,
    ours: &mut J,
    word: &str,
) -> Result<String, Memory> {
    match name {
        "copy" => told::held(alloc, &ours.copy()?),
        "is_empty" => told::truth(alloc, ours.is_empty()),
        "list_count" => told::number(alloc, ours.list_count()),
        "append_lists" => appended(alloc, ours, word),
        _ => told_of_both(alloc, name, ours, &value_of(alloc, word)?),
    }
}

fn told_of_both<J: Made>(
    alloc: Global,
    name: &str,
    ours: &mut J,
    theirs: &J,
) -> Result<String, Memory> {
    match name {
        "join" => joined(alloc, ours, theirs),
        "missing_from" => missing(alloc, ours, theirs),
        "same" => told::truth(alloc, ours.same(theirs)),
        _ => answer(alloc, "no such call", &[]),
    }
}

fn joined<J: Made>(alloc: Global, ours: &mut J, theirs: &J) -> Result<String, Memory> {
    let outcome = ours.join(theirs);
    told::left(alloc, outcome, ours)
}

/// Answers what the first has and the second lacks.
fn missing<J: Made>(alloc: Global, ours: &J, theirs: &J) -> Result<String, Memory> {
    match ours.missing_from(theirs)? {
        Some(part) => {
            let part = told::contents(alloc, &part)?;
            answer(alloc, "ok", &["some", part.as_str()])
        }
        None => answer(alloc, "ok", &["none"]),
    }
}

/// Answers the lists of the value, each after the prefix.
fn appended<J: Made>(alloc: Global, value: &J, prefix: &str) -> Result<String, Memory> {
    let mut lists = Vec::new(alloc);
    value.append_lists(&list(alloc, prefix)?, &mut lists)?;
    told::lists(alloc, &lists)
}
