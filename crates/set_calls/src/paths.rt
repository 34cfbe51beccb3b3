//! Calls of flat sets of lists. The first word is the set, the second a list or another set.
ghost use Rattle.std.specs.Prelude.{[]};

use crate::keeping::walked;
use crate::kinds::value_of;
use crate::lists::{lent, list, lists};
use crate::told;
use cadf_join::Memory;
use cadf_pathset::{Carrier, PathSet, PathSetBuilder};
use calls::{Call, answer, is_refused, push_answer};
use std::alloc::Global;

/// Answers the call of that name.
pub(crate) fn answered(alloc: Global, name: &str, call: &Call) -> Result<String, Memory> {
    match name {
        "missing_with_carriers" => missing(
            alloc,
            &value_of(alloc, call.text(1))?,
            &value_of(alloc, call.text(2))?,
        ),
        "gathered" => gathered(alloc, call.text(1)),
        "walk" => shown(alloc, call),
        _ => told_of_set(alloc, name, call),
    }
}

/// Answers a call about a set; if an allocation failed, also what it answers when it is made again.
fn told_of_set(alloc: Global, name: &str, call: &Call) -> Result<String, Memory> {
    let mut ours: PathSet = value_of(alloc, call.text(1))?;
    let mut line = told_of(alloc, name, &mut ours, call)?;
    if is_refused(line.as_str()) {
        push_answer(&mut line, told_of(alloc, name, &mut ours, call)?.as_str())?;
    }
    Ok(line)
}

fn told_of(alloc: Global, name: &str, ours: &mut PathSet, call: &Call) -> Result<String, Memory> {
    match name {
        "union_with" => united(alloc, ours, call.text(2)),
        "take" => taken(alloc, ours, call.text(2)),
        _ => told_of_list(alloc, name, ours, call),
    }
}

/// Answers the lists that a walk of a set visits after a path.
fn shown(alloc: Global, call: &Call) -> Result<String, Memory> {
    let ours: PathSet = value_of(alloc, call.text(1))?;
    let given = list(alloc, call.text(2))?;
    let mut path = lent(alloc, &given)?;
    walked(alloc, &ours, &mut path)
}

/// Answers a call about a set and a list.
fn told_of_list(
    alloc: Global,
    name: &str,
    ours: &mut PathSet,
    call: &Call,
) -> Result<String, Memory> {
    let given = list(alloc, call.text(2))?;
    match name {
        "holds" => told::truth(alloc, ours.holds(&given)),
        "last_starts_with" => told::truth(alloc, ours.last_starts_with(&given)),
        "least" => told::found(alloc, ours.list_after(None)?),
        "list_after" => told::found(alloc, ours.list_after(Some(given.as_slice()))?),
        _ => told_of_lent(alloc, name, ours, &lent(alloc, &given)?, call.text(3)),
    }
}

/// Answers a call about a set, a list of borrowed texts, and a text.
fn told_of_lent(
    alloc: Global,
    name: &str,
    ours: &mut PathSet,
    given: &[&str],
    text: &str,
) -> Result<String, Memory> {
    match name {
        "contains" => told::truth(alloc, ours.contains(given)),
        "is_above" => told::truth(alloc, ours.is_above(given)),
        "insert" => inserted(alloc, ours, given),
        "suffixes" => told::lists(alloc, &ours.suffixes(given)?),
        "least_text" => told::text(alloc, ours.next_child(given, None)),
        "next_child" => told::text(alloc, ours.next_child(given, Some(text))),
        "child_texts" => told::texts(alloc, &ours.child_texts(given)?),
        "multi_valued_count_at" => told::number(alloc, ours.multi_valued_count_at(given)),
        "longest_suffix" => told::found(alloc, ours.longest_suffix(given)?),
        _ => answer(alloc, "no such call", &[]),
    }
}

fn inserted(alloc: Global, ours: &mut PathSet, list: &[&str]) -> Result<String, Memory> {
    let outcome = ours.insert(list);
    told::left(alloc, outcome, ours)
}

fn united(alloc: Global, ours: &mut PathSet, word: &str) -> Result<String, Memory> {
    let theirs: PathSet = value_of(alloc, word)?;
    let outcome = ours.union_with(&theirs);
    told::left(alloc, outcome, ours)
}

fn taken(alloc: Global, ours: &mut PathSet, word: &str) -> Result<String, Memory> {
    let outcome = ours.take(value_of(alloc, word)?);
    told::left(alloc, outcome, ours)
}

/// Determines as the carrier of every list the empty list.
enum ByNothing {}

impl Carrier for ByNothing {
    ghost carrier = { λ _. [] };

    fn length(_list: &[&str]) -> usize {
        0
    }

    ghost in_order = { λ _ _ _ g. Prim.cc };
}

/// Answers the lists that the first has and the second lacks, with their carriers.
fn missing(alloc: Global, ours: &PathSet, theirs: &PathSet) -> Result<String, Memory> {
    told::held(alloc, &ours.missing_with_carriers::<ByNothing>(theirs)?)
}

/// Answers the set of the lists, built from them in the order of the word.
fn gathered(alloc: Global, word: &str) -> Result<String, Memory> {
    let mut gathered = PathSetBuilder::new(alloc);
    for list in lists(alloc, word)? {
        gathered.push(&lent(alloc, &list)?, 0)?;
    }
    told::held(alloc, &gathered.build()?)
}
