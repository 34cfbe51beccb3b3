//! The texts of faults. The word names the fault; a second one is its number.

use cadf_json::Memory;
use cadf_replica::{AtomFault, RehearseFault, ReplicaFault, RulingFault};
use cadf_script::ScriptFault;
use calls::{Call, answer};
use std::alloc::Global;

/// Answers the text of the fault of that kind.
pub(crate) fn answered(alloc: Global, kind: &str, call: &Call) -> Result<String, Memory> {
    match kind {
        "atom" => atom(alloc, call.text(1)),
        "replica" => replica(alloc, call.text(1)),
        "ruling" => ruling(alloc, call.text(1)),
        "schedule" => schedule(alloc, call.text(1), call.number(2)),
        "script" => script(alloc, call.text(1), call.number(2)),
        _ => answer(alloc, "no such call", &[]),
    }
}

fn atom(alloc: Global, name: &str) -> Result<String, Memory> {
    let fault = match name {
        "Json" => AtomFault::Json,
        "NotCanonical" => AtomFault::NotCanonical,
        "Shape" => AtomFault::Shape,
        _ => AtomFault::Memory,
    };
    format!(in alloc; "{fault}")
}

fn replica(alloc: Global, name: &str) -> Result<String, Memory> {
    let fault = match name {
        "OtherLog" => ReplicaFault::OtherLog,
        "Ungrounded" => ReplicaFault::Ungrounded,
        _ => ReplicaFault::Memory,
    };
    format!(in alloc; "{fault}")
}

fn ruling(alloc: Global, name: &str) -> Result<String, Memory> {
    let fault = match name {
        "Letter" => RulingFault::Letter,
        "Key" => RulingFault::Key,
        "Digest" => RulingFault::Digest,
        _ => RulingFault::Memory,
    };
    format!(in alloc; "{fault}")
}

fn schedule(alloc: Global, name: &str, turn: usize) -> Result<String, Memory> {
    let fault = match name {
        "NoSite" => RehearseFault::NoSite(turn),
        "NoMessage" => RehearseFault::NoMessage(turn),
        "NotInventory" => RehearseFault::NotInventory(turn),
        "WrongAddressee" => RehearseFault::WrongAddressee(turn),
        "OtherLog" => RehearseFault::OtherLog(turn),
        _ => RehearseFault::Memory,
    };
    format!(in alloc; "{fault}")
}

fn script(alloc: Global, name: &str, line: usize) -> Result<String, Memory> {
    let fault = match name {
        "Line" => ScriptFault::Line(line),
        _ => ScriptFault::Memory,
    };
    format!(in alloc; "{fault}")
}
