//! Calls of scripts, and of their schedules.

use crate::spelled::{name as log_of, of_replica};
use cadf_event::Name;
use cadf_json::Memory;
use cadf_replica::{RehearseFault, Replica, Turn, rehearse};
use cadf_script::read_script;
use calls::{Call, answer, push, refused};
use std::alloc::Global;

/// Answers the call of that name.
pub(crate) fn answered(alloc: Global, name: &str, call: &Call) -> Result<String, Memory> {
    match name {
        "read_script" => read(alloc, call.bytes(1)),
        "rehearse" => rehearsed(
            alloc,
            &log_of(alloc, call.text(1))?,
            call.number(2),
            call.bytes(3),
        ),
        _ => answer(alloc, "no such call", &[]),
    }
}

/// Answers the turns of the script, each a field, or the first line that is no turn.
fn read(alloc: Global, script: &[u8]) -> Result<String, Memory> {
    match read_script(alloc, script) {
        Ok(turns) => listed(alloc, &turns),
        Err(fault) => refused(alloc, &fault),
    }
}

fn listed(alloc: Global, turns: &[Turn]) -> Result<String, Memory> {
    let mut line = answer(alloc, "ok", &[])?;
    for turn in turns {
        push(&mut line, spelled(alloc, turn)?.as_str())?;
    }
    Ok(line)
}

/// Answers the turn; for `learn` the document's log and its number of events.
fn spelled(alloc: Global, turn: &Turn) -> Result<String, Memory> {
    match turn {
        Turn::Learn(site, document) => match document.log() {
            Some(log) => format!(in alloc;
                "learn {site} {} {}",
                log.as_str(),
                document.sightings().len()
            ),
            None => format!(in alloc; "learn {site} {}", document.sightings().len()),
        },
        Turn::Ask(site) => format!(in alloc; "ask {site}"),
        Turn::Answer(site, message) => format!(in alloc; "answer {site} {message}"),
        Turn::Send(site) => format!(in alloc; "send {site}"),
        Turn::Deliver(message, site) => format!(in alloc; "deliver {message} {site}"),
    }
}

/// Answers the replica of each site after the script's turns, a field each, or the fault.
fn rehearsed(alloc: Global, log: &Name, sites: usize, script: &[u8]) -> Result<String, Memory> {
    match read_script(alloc, script) {
        Ok(turns) => left(alloc, rehearse(alloc, log, sites, &turns)),
        Err(fault) => refused(alloc, &fault),
    }
}

fn left(alloc: Global, left: Result<Vec<Replica>, RehearseFault>) -> Result<String, Memory> {
    match left {
        Ok(sites) => spelled_sites(alloc, &sites),
        Err(fault) => refused(alloc, &fault),
    }
}

fn spelled_sites(alloc: Global, sites: &[Replica]) -> Result<String, Memory> {
    let mut line = answer(alloc, "ok", &[])?;
    for site in sites {
        push(&mut line, of_replica(alloc, site)?.as_str())?;
    }
    Ok(line)
}
