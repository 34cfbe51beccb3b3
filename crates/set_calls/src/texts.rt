//! Calls of sets of texts. The first word is the set.

use crate::kinds::value_of;
use crate::told;
use cadf_join::{Memory, TextSet};
use calls::{Call, answer, is_refused, push_answer};
use std::alloc::Global;

/// Answers the call of that name; if an allocation failed, also what it answers when it is made again.
pub(crate) fn answered(alloc: Global, name: &str, call: &Call) -> Result<String, Memory> {
    let mut ours: TextSet = value_of(alloc, call.text(1))?;
    let mut line = told_of(alloc, name, &mut ours, call)?;
    if is_refused(line.as_str()) {
        push_answer(&mut line, told_of(alloc, name, &mut ours, call)?.as_str())?;
    }
    Ok(line)
}

fn told_of(alloc: Global, name: &str, ours: &mut TextSet, call: &Call) -> Result<String, Memory> {
    match name {
        "insert" => {
            let outcome = ours.insert(call.text(2));
            told::added(alloc, outcome, ours)
        }
        "contains" => told::truth(alloc, ours.contains(call.text(2))),
        "least" => told::text(alloc, ours.after(None)),
        "after" => told::text(alloc, ours.after(Some(call.text(2)))),
        _ => answer(alloc, "no such call", &[]),
    }
}
