//! The drivers as one program. A line of standard input is a driver's name, a call's name and its words, between tabs;
//! a line of standard output is what the call answers.
#![tactic(auto)]

use calls::Call;
use std::alloc::{AllocError as Memory, Global};
use std::io;

/// Lets the driver make the call, and returns the line of its answer.
fn answered(alloc: Global, driver: &str, call: &Call) -> Result<String, Memory> {
    match driver {
        "json" => json_calls::answered(alloc, call),
        "event" => event_calls::answered(alloc, call),
        "set" => set_calls::answered(alloc, call),
        "replica" => replica_calls::answered(alloc, call),
        "file" => file_calls::answered(alloc, call),
        "engine" => engine_calls::answered(alloc, call),
        "words" => words_calls::answered(alloc, call),
        _ => calls::answer(alloc, "no such driver", &[]),
    }
}

/// Makes the call that the line spells, and returns the line of its answer.
fn line_answered(alloc: Global, line: &str) -> Result<String, Memory> {
    let (driver, call) = line.split_once('\t').unwrap_or_default();
    let call = Call::read(alloc, call)?;
    answered(alloc, driver, &call)
}

/// Calls the laws, which do nothing.
fn laws() {
    json_calls::laws();
    event_calls::laws();
    set_calls::laws();
    replica_calls::laws();
}

fn main(rt: HostRuntime) -> io::Result<()> {
    laws();
    for line in rt.lines(rt.alloc()) {
        let line = line?;
        match line_answered(rt.alloc(), line.as_str()) {
            Ok(answer) => println!(rt; "{answer}")?,
            Err(_) => println!(rt; "err\tMemory")?,
        }
    }
    Ok(())
}
