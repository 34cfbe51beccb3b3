//! Engines: a writer, their own words, and readers.

use crate::answers::Answer;
use crate::words::Words;
use cadf_event::Name;
use cadf_tool::{
    Cells, CountingSink, Request, Salt, ToolFault, Unit, run, run_check, run_inventory, run_join,
    run_missing, run_missing_by, run_rehearse, run_rule, run_show, status,
};
use calls::{MemorySink, MemorySource, push, push_number, refused};
use std::alloc::{AllocError as Memory, Global};

/// The result of an engine: `None` if the words don't say what to run.
type Ran = Option<Result<(), ToolFault>>;

/// What an engine writes to. Its bytes are counted, as the command counts them.
type Output = CountingSink<MemorySink>;

/// Makes the readers of the words from that place on.
fn sources<'w>(
    alloc: Global,
    words: Words<'w>,
    first: usize,
) -> Result<Vec<MemorySource<'w>>, Memory> {
    let mut inputs = Vec::new(alloc);
    for place in (first..words.count()).step_by(3) {
        inputs.push(words.source(place))?;
    }
    Ok(inputs)
}

/// Reads a unit of time.
fn unit(word: &str) -> Option<Unit> {
    match word {
        "month" => Some(Unit::Month),
        "day" => Some(Unit::Day),
        "hour" => Some(Unit::Hour),
        _ => None,
    }
}

/// Reads a letter, a key and a place.
fn ruling(alloc: Global, words: Words<'_>) -> Option<(char, Name, u64)> {
    let letter = words.text(4).chars().next()?;
    let key = Name::read(alloc, words.text(5)).ok()?;
    Some((letter, key, words.number(6) as u64))
}

/// Reads the log that the word at that place names; an empty one names none.
fn log(alloc: Global, words: Words<'_>, place: usize) -> Option<Name> {
    Name::read(alloc, words.text(place)).ok()
}

/// Reads the request of that name, of the words from 4 on, and the place of the first reader.
fn request(alloc: Global, name: &str, words: Words<'_>) -> Option<(Request, usize)> {
    Some(match name {
        "join" => {
            let log = log(alloc, words, 4);
            (Request::Join { log }, 5)
        }
        "split" => {
            let (unit, log) = (unit(words.text(4))?, log(alloc, words, 5));
            (Request::Split { unit, log }, 6)
        }
        "missing" => {
            let from = words.number(4);
            (Request::Missing { from }, 5)
        }
        "missing_by" => (Request::MissingBy, 4),
        "inventory" => (Request::Inventory, 4),
        "sketch" => {
            let cells = Cells::of(words.number(4) as u64);
            let salt = Salt::of(words.number(5) as u64);
            (Request::Sketch { cells, salt }, 6)
        }
        "missing_by_sketch" => (Request::MissingBySketch, 4),
        "seal" => (Request::Seal, 4),
        "prove" => (Request::Prove, 4),
        "prove_keys" => (Request::ProveKeys, 4),
        "verify" => {
            let absent = words.text(4) == "absent";
            (Request::Verify { absent }, 5)
        }
        "verify_keys" => {
            let absent = words.text(4) == "absent";
            (Request::VerifyKeys { absent }, 5)
        }
        "sealed" => (Request::Sealed, 4),
        "growth" => (Request::Growth, 4),
        "grew" => {
            let erased = words.text(4) == "erased";
            (Request::Grew { erased }, 5)
        }
        "omit" => (Request::Omit, 4),
        "rule" => {
            let (letter, key, place) = ruling(alloc, words)?;
            (Request::Rule { letter, key, place }, 7)
        }
        "rehearse" => {
            let (log, sites) = (log(alloc, words, 4)?, words.number(5));
            (Request::Rehearse { log, sites }, 6)
        }
        "show" => {
            let conflicts = words.text(4) == "conflicts";
            (Request::Show { conflicts }, 5)
        }
        "check" => (Request::Check, 4),
        _ => return None,
    })
}

/// Runs `run` of the request of that name. Its words are those of the request, and readers.
fn asked(alloc: Global, name: &str, words: Words<'_>, sink: &mut Output) -> Ran {
    let (request, first) = request(alloc, name, words)?;
    let mut inputs = sources(alloc, words, first).ok()?;
    if !request.accepts(inputs.len()) {
        return None;
    }
    Some(run(alloc, &request, inputs.as_mut_slice(), sink))
}

/// Runs `run_join`. Its words are a log, empty for none, and readers.
fn join(alloc: Global, words: Words<'_>, sink: &mut Output) -> Ran {
    let mut inputs = sources(alloc, words, 5).ok()?;
    Some(run_join(alloc, log(alloc, words, 4), inputs.as_mut_slice(), sink))
}

/// Runs `run_rule`. Its words are a letter, a key, a place and a reader.
fn rule(alloc: Global, words: Words<'_>, sink: &mut Output) -> Ran {
    let (letter, key, place) = ruling(alloc, words)?;
    Some(run_rule(alloc, letter, &key, place, &mut words.source(7), sink))
}

/// Runs `run_rehearse`. Its words are a log, a number of sites and a reader.
fn rehearse(alloc: Global, words: Words<'_>, sink: &mut Output) -> Ran {
    let (log, sites) = (log(alloc, words, 4)?, words.number(5));
    Some(run_rehearse(alloc, &log, sites, &mut words.source(6), sink))
}

/// Runs the engine of that name on one input or two: `run_show` has a word `log` or `conflicts` before its reader. `ask_`
/// and a request's name is `run` of it. `None` if there is none, or if its words don't fit.
fn run_call(alloc: Global, words: Words<'_>, sink: &mut Output) -> Ran {
    let (mut first, mut second) = (words.source(4), words.source(7));
    Some(match words.text(0) {
        "run_join" => return join(alloc, words, sink),
        "run_rule" => return rule(alloc, words, sink),
        "run_rehearse" => return rehearse(alloc, words, sink),
        "run_missing" => run_missing(alloc, &mut first, &mut second, sink),
        "run_missing_by" => run_missing_by(alloc, &mut first, &mut second, sink),
        "run_inventory" => run_inventory(alloc, &mut first, sink),
        "run_show" => run_show(
            alloc,
            words.text(4) == "conflicts",
            &mut words.source(5),
            sink,
        ),
        "run_check" => run_check(alloc, &mut first, sink),
        name => return asked(alloc, name.strip_prefix("ask_")?, words, sink),
    })
}

/// Makes the writer of an engine.
fn output(alloc: Global, words: Words<'_>) -> Output {
    CountingSink::new(words.sink(alloc, 1))
}

/// Makes the answer of an engine: its result, and what it wrote.
fn answer(alloc: Global, told: String, sink: Output) -> Result<Answer, Memory> {
    let written = Vec::from_slice(alloc, sink.into_inner().bytes())?;
    Ok(Answer { told, written })
}

/// Runs an engine, and returns its answer.
pub(crate) fn answered(alloc: Global, words: Words<'_>) -> Result<Answer, Memory> {
    let mut sink = output(alloc, words);
    let told = match run_call(alloc, words, &mut sink) {
        Some(Ok(())) => calls::answer(alloc, "ok", &[])?,
        Some(Err(fault)) => refused(alloc, &fault)?,
        None => calls::answer(alloc, "no such call", &[])?,
    };
    answer(alloc, told, sink)
}

/// Returns the status and the text of a fault.
fn status_and_text(alloc: Global, fault: &ToolFault) -> Result<String, Memory> {
    let (status, text) = (status(fault), format!(in alloc; "{fault}")?);
    calls::answer(
        alloc,
        format!(in alloc; "{status}")?.as_str(),
        &[text.as_str()],
    )
}

/// Runs an engine for `fault`, and returns the status and the text of its fault.
pub(crate) fn faulted(alloc: Global, words: Words<'_>) -> Result<Answer, Memory> {
    let mut sink = output(alloc, words);
    let told = match run_call(alloc, words, &mut sink) {
        Some(Err(fault)) => status_and_text(alloc, &fault)?,
        _ => calls::answer(alloc, "no fault", &[])?,
    };
    answer(alloc, told, sink)
}

/// Returns how many bytes were written, and the report if they are more than the limit.
fn count_and_warning(alloc: Global, sink: &Output, limit: u64) -> Result<String, Memory> {
    let mut line = calls::answer(alloc, "ok", &[])?;
    push_number(alloc, &mut line, i128::from(sink.bytes_written()))?;
    match sink.over_limit(limit) {
        Some(over_limit) => {
            push(&mut line, "some")?;
            push(&mut line, format!(in alloc; "{over_limit}")?.as_str())?;
        }
        None => push(&mut line, "none")?,
    }
    Ok(line)
}

/// Runs an engine for `metered`, whose words are a limit and the engine's call. Returns how many bytes it wrote, even
/// if it failed.
pub(crate) fn metered(alloc: Global, words: Words<'_>) -> Result<Answer, Memory> {
    let call = words.inner().inner();
    let mut sink = output(alloc, call);
    let told = match run_call(alloc, call, &mut sink) {
        Some(_) => count_and_warning(alloc, &sink, words.number(1) as u64)?,
        None => calls::answer(alloc, "no such call", &[])?,
    };
    answer(alloc, told, sink)
}
