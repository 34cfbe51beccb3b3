//! Lists of texts as words, and prefixes of lists.

use cadf_join::prefix::copy_texts;
use cadf_json::{Json, Memory, View, quoted};
use calls::{Call, answer};
use std::alloc::Global;

/// Reads the JSON value of the word, or that of an empty list if it is missing. A word that is none is answered as
/// `Memory`.
fn json(alloc: Global, word: &str) -> Result<Json, Memory> {
    let word = if word.is_empty() { "[]" } else { word };
    match Json::read(alloc, word.as_bytes()) {
        Ok(json) => Ok(json),
        Err(_) => Err(Memory),
    }
}

/// Adds the text at the place, if there is one.
fn push_text(
    alloc: Global,
    texts: &mut Vec<String>,
    list: &View,
    place: usize,
) -> Result<(), Memory> {
    if let Some(item) = list.item(place) {
        texts.push(String::from_str(alloc, item.as_text().unwrap_or_default())?)?;
    }
    Ok(())
}

/// Answers the texts of the list.
fn texts_of(alloc: Global, list: &View) -> Result<Vec<String>, Memory> {
    let mut texts = Vec::new(alloc);
    for place in 0..list.len() {
        push_text(alloc, &mut texts, list, place)?;
    }
    Ok(texts)
}

/// Adds the list at the place, if there is one.
fn push_list(
    alloc: Global,
    lists: &mut Vec<Vec<String>>,
    all: &View,
    place: usize,
) -> Result<(), Memory> {
    if let Some(item) = all.item(place) {
        lists.push(texts_of(alloc, &item)?)?;
    }
    Ok(())
}

/// Answers the list that the word spells.
pub(crate) fn list(alloc: Global, word: &str) -> Result<Vec<String>, Memory> {
    let json = json(alloc, word)?;
    texts_of(alloc, &json.view())
}

/// Answers the lists that the word spells.
pub(crate) fn lists(alloc: Global, word: &str) -> Result<Vec<Vec<String>>, Memory> {
    let json = json(alloc, word)?;
    let all = json.view();
    let mut lists = Vec::new(alloc);
    for place in 0..all.len() {
        push_list(alloc, &mut lists, &all, place)?;
    }
    Ok(lists)
}

/// Borrows the texts of the list.
pub(crate) fn lent<'a>(alloc: Global, list: &'a [String]) -> Result<Vec<&'a str>, Memory> {
    let mut texts = Vec::new(alloc);
    for text in list {
        texts.push(text.as_str())?;
    }
    Ok(texts)
}

/// Adds the JSON list of the texts.
fn push_spelled(alloc: Global, spelled: &mut String, list: &[String]) -> Result<(), Memory> {
    let mut before = '[';
    for text in list {
        spelled.push(before)?;
        spelled.push_str(quoted(alloc, text.as_str())?.as_str())?;
        before = ',';
    }
    spelled.push_str(if before == '[' { "[]" } else { "]" })
}

/// Answers the JSON list of the texts.
pub(crate) fn spelled(alloc: Global, list: &[String]) -> Result<String, Memory> {
    let mut spelled = String::new(alloc);
    push_spelled(alloc, &mut spelled, list)?;
    Ok(spelled)
}

/// Answers the JSON list of the lists.
pub(crate) fn all_spelled(alloc: Global, lists: &[Vec<String>]) -> Result<String, Memory> {
    let mut spelled = String::new(alloc);
    let mut before = '[';
    for list in lists {
        spelled.push(before)?;
        push_spelled(alloc, &mut spelled, list.as_slice())?;
        before = ',';
    }
    spelled.push_str(if before == '[' { "[]" } else { "]" })?;
    Ok(spelled)
}

/// Answers a copy of the prefix.
pub(crate) fn answered(alloc: Global, call: &Call) -> Result<String, Memory> {
    let copy = copy_texts(alloc, &list(alloc, call.text(1))?)?;
    answer(alloc, "ok", &[spelled(alloc, &copy)?.as_str()])
}
