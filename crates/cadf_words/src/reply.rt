//! The reply to words that are not parsed to a request.
ghost use Rattle.std.specs.Prelude.{◌≡◌};
ghost use Rattle.cadf_words.specs.declared.reply.Reply.TheVariants.{Memory};
ghost use Rattle.cadf_words.specs.Synopsis.{AnswersError};

use clap::Error;
use clap::error::ErrorKind;
use std::alloc::AllocError;
use std::{fmt, io};

/// A text for the user: help, the version, or why the words are refused.
#[derive(Drop)]
pub struct Message {
    error: Error,
}

impl Message {
    /// Prints the text: why words are refused on standard error, any other on standard output.
    pub fn print<R: Print + Eprint>(&self, rt: &R) -> io::Result<()> {
        self.error.print(rt)
    }
}

impl fmt::Display for Message {
    fn fmt<W: fmt::Write>(&self, f: &mut fmt::Formatter<W>) -> fmt::Result {
        self.error.fmt(f)
    }
}

/// The reply to words that are not parsed to a request.
#[derive(Drop)]
pub enum Reply {
    /// Memory ran out.
    Memory,
    /// The words ask for help or for the version.
    Help(Message),
    /// The words are refused.
    Refused(Message),
}

impl From<Error> for Reply {
    ghost from_gives = { AnswersError };

    fn from(error: Error) -> Reply {
        match error.kind() {
            ErrorKind::OutOfMemory => Reply::Memory,
            _ if error.use_stderr() => Reply::Refused(Message { error }),
            _ => Reply::Help(Message { error }),
        }
    }
}

impl From<AllocError> for Reply {
    ghost from_gives = { λ _ reply. reply ≡ Memory };

    fn from(_error: AllocError) -> Reply {
        Reply::Memory
    }
}
