//! Calls of trees of chains. The first word is the tree, the second a chain or another list.

use crate::kinds::value_of;
use crate::lists::list;
use crate::told;
use cadf_join::Memory;
use cadf_pathset::ChainTree;
use calls::{Call, answer, is_refused, push_answer};
use std::alloc::Global;

/// Answers the call of that name; if an allocation failed, also what it answers when it is made again.
pub(crate) fn answered(alloc: Global, name: &str, call: &Call) -> Result<String, Memory> {
    let mut ours: ChainTree = value_of(alloc, call.text(1))?;
    let given = list(alloc, call.text(2))?;
    let mut line = told_of(alloc, name, &mut ours, &given)?;
    if is_refused(line.as_str()) {
        push_answer(&mut line, told_of(alloc, name, &mut ours, &given)?.as_str())?;
    }
    Ok(line)
}

fn told_of(
    alloc: Global,
    name: &str,
    ours: &mut ChainTree,
    given: &[String],
) -> Result<String, Memory> {
    match name {
        "insert" => inserted(alloc, ours, given),
        "contains" => told::truth(alloc, ours.contains(given)),
        "count" => told::number(alloc, ours.count()),
        "least" => told::found(alloc, ours.after(None)?),
        "after" => told::found(alloc, ours.after(Some(given))?),
        "longest" => told::found(alloc, ours.longest()?),
        "walk" => told::lists(alloc, &ours.walk()?),
        _ => answer(alloc, "no such call", &[]),
    }
}

fn inserted(alloc: Global, ours: &mut ChainTree, chain: &[String]) -> Result<String, Memory> {
    if chain.is_empty() || chain.len() > 256 {
        return answer(alloc, "no chain", &[]);
    }
    let outcome = ours.insert(chain);
    told::added(alloc, outcome, ours)
}
