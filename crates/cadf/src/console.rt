//! What is printed beside the output of a request.
ghost use Rattle.std.specs.Prelude.{◌≡◌, List, Option, None, Bool, is_ok};
ghost use Rattle.cadf.specs.Ended.{Notice, Fault, Text, TooLarge, NoUtf8, and_printed};

use crate::stop::Stop;
use cadf_json::Failed;
use cadf_tool::OverLimit;
use cadf_words::Message;
use std::io;

/// Prints texts for the user.
pub(crate) trait Console {
    // What was printed, each with whether all of it was written, if it is known.
    ghost printed: { Self → Option (List (Notice × Bool)) };

    /// Prints why the command failed, on standard error. `Err`: a write failed.
    fn print_fault(&mut self, stop: &Stop) -> Result<(), Failed>
        ensures { printed self.new ≡ and_printed (printed self.old) (Fault stop.now) (is_ok result) };

    /// Prints that the output is larger than an input may be, on standard error. `Err`: a write failed.
    fn print_report(&mut self, report: &OverLimit) -> Result<(), Failed>
        ensures { printed self.new ≡ and_printed (printed self.old) (TooLarge report.now) (is_ok result) };

    /// Prints the text, help on standard output and why words are refused on standard error. `Err`: a write failed.
    fn print_message(&mut self, message: &Message) -> Result<(), Failed>
        ensures { printed self.new ≡ and_printed (printed self.old) (Text message.now) (is_ok result) };

    /// Prints that a word isn't UTF-8, on standard error. `Err`: a write failed.
    fn print_no_utf8(&mut self) -> Result<(), Failed>
        ensures { printed self.new ≡ and_printed (printed self.old) NoUtf8 (is_ok result) };
}

/// Prints to the machine's standard output and standard error, of which nothing is known.
#[derive(Drop)]
pub(crate) struct SystemConsole<'r> {
    pub(crate) rt: &'r HostRuntime,
}

/// Returns the result of printing without what the machine says of a failure.
fn told(printed: io::Result<()>) -> Result<(), Failed>
    ensures { is_ok result ≡ is_ok printed }
{
    match printed {
        Ok(()) => Ok(()),
        Err(_) => Err(Failed),
    }
}

impl Console for SystemConsole<'_> {
    ghost printed = { λ _. None };

    fn print_fault(&mut self, stop: &Stop) -> Result<(), Failed> {
        told(eprintln!(self.rt; "cadf: {stop}"))
    }

    fn print_report(&mut self, report: &OverLimit) -> Result<(), Failed> {
        told(eprintln!(self.rt; "cadf: {report}"))
    }

    fn print_message(&mut self, message: &Message) -> Result<(), Failed> {
        told(message.print(self.rt))
    }

    fn print_no_utf8(&mut self) -> Result<(), Failed> {
        told(eprintln!(self.rt; "error: an argument is not UTF-8"))
    }
}
