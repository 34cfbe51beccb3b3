//! Calls of maps. The first word is the kind of the values, the second is the map.

use crate::kinds::{Made, value_of};
use crate::told;
use cadf_join::{JoinMap, Memory, TextSet};
use cadf_pathset::ChainTree;
use calls::{Call, answer, is_refused, push_answer};
use std::alloc::Global;

/// Answers the call of that name.
pub(crate) fn answered(alloc: Global, name: &str, call: &Call) -> Result<String, Memory> {
    match call.text(1) {
        "texts" => told_of::<TextSet>(alloc, name, call),
        "tree" => told_of::<ChainTree>(alloc, name, call),
        "map of texts" => told_of::<JoinMap<TextSet>>(alloc, name, call),
        _ => answer(alloc, "no such kind", &[]),
    }
}

/// Answers the call; if an allocation failed, also what it answers when it is made again.
fn told_of<V: Made>(alloc: Global, name: &str, call: &Call) -> Result<String, Memory> {
    let mut ours: JoinMap<V> = value_of(alloc, call.text(2))?;
    let mut line = told_of_map(alloc, name, &mut ours, call)?;
    if is_refused(line.as_str()) {
        push_answer(
            &mut line,
            told_of_map(alloc, name, &mut ours, call)?.as_str(),
        )?;
    }
    Ok(line)
}

fn told_of_map<V: Made>(
    alloc: Global,
    name: &str,
    ours: &mut JoinMap<V>,
    call: &Call,
) -> Result<String, Memory> {
    match name {
        "get" => got(alloc, ours.get(call.text(3))),
        "join_at" => joined(alloc, ours, call.text(3), call.text(4)),
        "least" => told::text(alloc, ours.after(None)),
        "after" => told::text(alloc, ours.after(Some(call.text(3)))),
        _ => answer(alloc, "no such call", &[]),
    }
}

/// Answers the contents of the value at a key.
fn got<V: Made>(alloc: Global, value: Option<&V>) -> Result<String, Memory> {
    match value {
        Some(value) => answer(alloc, "some", &[told::contents(alloc, value)?.as_str()]),
        None => answer(alloc, "none", &[]),
    }
}

/// Joins what the word spells into the value at the key.
fn joined<V: Made>(
    alloc: Global,
    ours: &mut JoinMap<V>,
    key: &str,
    word: &str,
) -> Result<String, Memory> {
    let value: V = value_of(alloc, word)?;
    let outcome = ours.join_at(key, &value);
    told::left(alloc, outcome, ours)
}
