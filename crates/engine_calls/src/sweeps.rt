//! Calls that are made once, or once for each of several numbers.

use crate::answers::Answer;
use crate::words::Words;
use crate::{engines, loads};
use calls::Call;
use std::alloc::{AllocError as Memory, Global};

/// Makes one call, and returns its answer.
fn one(alloc: Global, words: Words<'_>) -> Result<Answer, Memory> {
    match words.text(0) {
        "load" => loads::load_all(alloc, words),
        "load_within" => loads::load_limited(alloc, words),
        "fault" => engines::faulted(alloc, words.inner()),
        "metered" => engines::metered(alloc, words),
        _ => engines::answered(alloc, words),
    }
}

/// Makes the call with that number, and appends what its answer has beyond the previous one.
fn next(
    alloc: Global,
    words: Words<'_>,
    before: &Answer,
    line: &mut String,
) -> Result<Answer, Memory> {
    let answer = one(alloc, words)?;
    answer.push_after(before, line)?;
    Ok(answer)
}

/// Makes the call with each of these numbers, and returns the answers, each as far as it differs from the previous one.
fn each(
    alloc: Global,
    call: &Call,
    place: usize,
    numbers: (usize, usize),
) -> Result<String, Memory> {
    let mut line = String::new(alloc);
    let mut last = Answer::none(alloc);
    for number in numbers.0..=numbers.1 {
        last = next(alloc, Words::new(call, place, number), &last, &mut line)?;
    }
    Ok(line)
}

/// Returns the line of the call's answer. `each` has two numbers and a call, which is made for each number from the
/// first to the second: the word `N` is replaced by it.
pub(crate) fn answered(alloc: Global, call: &Call) -> Result<String, Memory> {
    match call.name() {
        "each" => each(alloc, call, 3, (call.number(1), call.number(2))),
        _ => each(alloc, call, 0, (0, 0)),
    }
}
