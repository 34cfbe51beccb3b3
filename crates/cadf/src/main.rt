//! The command: its words, files and streams, and the exit status.
#![tactic(auto)]

mod asked;
mod console;
mod end;
mod given;
mod opener;
mod output;
mod runner;
mod stop;

use crate::console::{Console, SystemConsole};
use crate::end::end;
use crate::opener::SystemOpener;
use crate::output::CountedBuffer;
use crate::stop::{Stop, report};
use cadf_tool::ToolFault;
use std::io::BufWriter;
use std::process::ExitCode;
use std::{env, io};

/// The exit status if a word isn't UTF-8.
const NO_UTF8: u8 = 2;

fn main(rt: HostRuntime) -> ExitCode {
    let mut console = SystemConsole { rt: &rt };
    let words = match env::args(&rt) {
        Ok(words) => words,
        Err(error) if error.kind() == io::ErrorKind::OutOfMemory => {
            return report(&mut console, &Stop::Tool(ToolFault::Memory));
        }
        Err(_) => {
            let _ = console.print_no_utf8();
            return ExitCode::from(NO_UTF8);
        }
    };
    let Ok(words) = words.collect::<Vec<String>>(rt.alloc()) else {
        return report(&mut console, &Stop::Tool(ToolFault::Memory));
    };
    let Ok(buffer) = BufWriter::new(rt.alloc(), io::writer(&rt)) else {
        return report(&mut console, &Stop::Tool(ToolFault::Memory));
    };
    end(
        rt.alloc(),
        words.as_slice(),
        &mut SystemOpener { rt: &rt },
        CountedBuffer::new(buffer),
        &mut console,
    )
}
