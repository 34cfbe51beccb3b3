//! Answers of the forms that most calls have.

use crate::lists::{all_spelled, spelled};
use cadf_join::{Join, Memory};
use calls::{answer, push};
use std::alloc::Global;

/// Answers `true` or `false`.
pub(crate) fn truth(alloc: Global, truth: bool) -> Result<String, Memory> {
    answer(alloc, if truth { "true" } else { "false" }, &[])
}

/// Answers a number.
pub(crate) fn number(alloc: Global, number: u64) -> Result<String, Memory> {
    format!(in alloc; "{number}")
}

/// Answers a text, or none.
pub(crate) fn text(alloc: Global, found: Option<&str>) -> Result<String, Memory> {
    match found {
        Some(text) => answer(alloc, "some", &[text]),
        None => answer(alloc, "none", &[]),
    }
}

/// Answers `ok` with a list, or with none.
pub(crate) fn found(alloc: Global, found: Option<Vec<String>>) -> Result<String, Memory> {
    match found {
        Some(list) => {
            let list = spelled(alloc, &list)?;
            answer(alloc, "ok", &["some", list.as_str()])
        }
        None => answer(alloc, "ok", &["none"]),
    }
}

/// Answers `ok` with these texts, each a field.
pub(crate) fn texts(alloc: Global, texts: &[String]) -> Result<String, Memory> {
    let mut line = answer(alloc, "ok", &[])?;
    for text in texts {
        push(&mut line, text.as_str())?;
    }
    Ok(line)
}

/// Answers `ok` with the lists.
pub(crate) fn lists(alloc: Global, lists: &[Vec<String>]) -> Result<String, Memory> {
    answer(alloc, "ok", &[all_spelled(alloc, lists)?.as_str()])
}

/// Answers the lists of the value.
pub(crate) fn contents<J: Join>(alloc: Global, value: &J) -> Result<String, Memory> {
    let mut lists = Vec::new(alloc);
    value.append_lists(&[], &mut lists)?;
    all_spelled(alloc, &lists)
}

/// Answers `ok` with the contents of the value.
pub(crate) fn held<J: Join>(alloc: Global, value: &J) -> Result<String, Memory> {
    left(alloc, Ok(()), value)
}

/// Answers the result of a change, and the contents of the value after it.
pub(crate) fn left<J: Join>(
    alloc: Global,
    outcome: Result<(), Memory>,
    value: &J,
) -> Result<String, Memory> {
    let word = match outcome {
        Ok(()) => "ok",
        Err(_) => "err\tMemory",
    };
    answer(alloc, word, &[contents(alloc, value)?.as_str()])
}

/// Answers the result of an insert: whether the list was new; and the contents of the value after it.
pub(crate) fn added<J: Join>(
    alloc: Global,
    outcome: Result<bool, Memory>,
    value: &J,
) -> Result<String, Memory> {
    let word = match outcome {
        Ok(true) => "ok\ttrue",
        Ok(false) => "ok\tfalse",
        Err(_) => "err\tMemory",
    };
    answer(alloc, word, &[contents(alloc, value)?.as_str()])
}
