//! Calls of the command line.
#![tactic(auto)]

use cadf_words::{Message, Reply, Request, parse};
use calls::Call;
use std::alloc::{AllocError as Memory, Global};

/// Returns the command line: each word of the call is a word of it.
fn words_of(alloc: Global, call: &Call) -> Result<Vec<String>, Memory> {
    let mut words = Vec::new(alloc);
    for place in 1..=call.count() {
        push_word(alloc, &mut words, call.text(place))?;
    }
    Ok(words)
}

/// Appends a word.
fn push_word(alloc: Global, words: &mut Vec<String>, word: &str) -> Result<(), Memory> {
    words.push(String::from_str(alloc, word)?)?;
    Ok(())
}

/// Adds a word that may be left out.
fn push_option(line: &mut String, word: Option<&str>) -> Result<(), Memory> {
    match word {
        Some(word) => {
            calls::push(line, "some")?;
            calls::push(line, word)
        }
        None => calls::push(line, "none"),
    }
}

/// Returns a request, as a line: its name and words, and the files.
fn of_files(alloc: Global, words: &[&str], files: &[&str]) -> Result<String, Memory> {
    with_options(alloc, words, &[], files)
}

/// Returns the same of a request with words that may be left out, which stand before the files.
fn with_options(
    alloc: Global,
    words: &[&str],
    options: &[Option<&str>],
    files: &[&str],
) -> Result<String, Memory> {
    let mut line = calls::answer(alloc, "ok", words)?;
    for option in options {
        push_option(&mut line, *option)?;
    }
    push_all(&mut line, files)?;
    Ok(line)
}

/// Adds all of these words.
fn push_all(line: &mut String, words: &[&str]) -> Result<(), Memory> {
    for word in words {
        calls::push(line, word)?;
    }
    Ok(())
}

/// Returns a request for a delta, as a line: the files of the sender, then those of the receiver.
fn delta(alloc: Global, name: &str, from: &[&str], to: &[&str]) -> Result<String, Memory> {
    let mut line = of_files(alloc, &[name], from)?;
    calls::push(&mut line, "to")?;
    push_all(&mut line, to)?;
    Ok(line)
}

/// Returns whether a flag is given, as a word.
fn flag(is_given: bool) -> &'static str {
    if is_given { "true" } else { "false" }
}

/// Returns a request for a proof, as a line.
fn prove<'a>(
    alloc: Global,
    keys: &'a str,
    facts: &'a str,
    files: &[&str],
) -> Result<String, Memory> {
    of_files(alloc, &["Prove", keys, facts], files)
}

/// Returns a request, as a line.
fn asked(alloc: Global, request: &Request<'_>) -> Result<String, Memory> {
    match request {
        Request::Join { log, files } => with_options(alloc, &["Join"], &[*log], files),
        Request::Split { by, log, files } => with_options(alloc, &["Split", by], &[*log], files),
        Request::Missing { from, to } => delta(alloc, "Missing", from, to),
        Request::MissingBy { from, inventory } => delta(alloc, "MissingBy", from, &[*inventory]),
        Request::Inventory { files } => of_files(alloc, &["Inventory"], files),
        Request::Sketch { cells, salt, files } => with_options(
            alloc,
            &["Sketch"],
            &[*cells, *salt],
            files,
        ),
        Request::MissingBySketch { from, sketch } => delta(
            alloc,
            "MissingBySketch",
            from,
            &[*sketch],
        ),
        Request::Seal { files } => of_files(alloc, &["Seal"], files),
        Request::Prove { keys, facts, files } => prove(alloc, flag(*keys), facts, files),
        Request::Verify {
            keys,
            absent,
            seal,
            facts,
            proof,
        } => of_files(
            alloc,
            &["Verify", flag(*keys), flag(*absent)],
            &[*seal, *facts, *proof],
        ),
        Request::Sealed { files } => of_files(alloc, &["Sealed"], files),
        Request::Growth { sealed, files } => of_files(alloc, &["Growth", sealed], files),
        Request::Grew {
            erased,
            old,
            new,
            proof,
        } => with_options(alloc, &["Grew"], &[*erased], &[*old, *new, *proof]),
        Request::Omit { list, files } => of_files(alloc, &["Omit", list], files),
        Request::Rule {
            letter,
            key,
            place,
            files,
        } => of_files(alloc, &["Rule", letter, key, place], files),
        Request::Rehearse { log, sites, script } => calls::answer(
            alloc,
            "ok",
            &["Rehearse", log, sites, script],
        ),
        Request::Show { conflicts, files } => of_files(alloc, &["Show", flag(*conflicts)], files),
        Request::Check { files } => of_files(alloc, &["Check"], files),
    }
}

/// Returns a text for the user, as a line.
fn told(alloc: Global, word: &str, message: &Message) -> Result<String, Memory> {
    let text = format!(in alloc; "{message}")?;
    calls::answer(alloc, word, &[text.as_str()])
}

/// Makes the call, and returns the line of its answer. An `Err` is a failed allocation.
pub fn answered(alloc: Global, call: &Call) -> Result<String, Memory> {
    let words = words_of(alloc, call)?;
    match parse(alloc, words.as_slice()) {
        Ok(request) => asked(alloc, &request),
        Err(Reply::Memory) => calls::answer(alloc, "err", &["Memory"]),
        Err(Reply::Help(message)) => told(alloc, "help", &message),
        Err(Reply::Refused(message)) => told(alloc, "refused", &message),
    }
}
