//! Why an argument is refused.
ghost use Rattle.std.specs.Prelude.{◌≡◌, ◌≤◌, Some};
ghost use Rattle.cadf_arguments.specs.Arguments.{argument_status_of, argument_text_of};

use std::error::Error;
use std::fmt;

/// Which argument of an engine is refused.
#[derive(Clone, Copy, Debug, Drop, PartialEq, Eq)]
pub enum ArgumentFault {
    /// The log is no name.
    LogName,
    /// The number of sites isn't 1 to 64.
    Sites,
    /// No value has the letter.
    Letter,
    /// The key is no name.
    Key,
    /// The place isn't 1 to 999,999,999.
    Place,
    /// The number of cells isn't a multiple of 3 from 3 to 12,582,912.
    Cells,
    /// The salt isn't odd.
    Salt,
    /// The word is no unit of time.
    Unit,
    /// An allocation failed.
    Memory,
}

impl ArgumentFault {
    /// Returns the exit status of the command for the fault: 2 or 4.
    pub fn status(&self) -> u8
        ensures status { result ≡ argument_status_of self.now }
        ensures refused { 1 ≤ result }
    {
        match self {
            ArgumentFault::Memory => 4,
            _ => 2,
        }
    }

    /// Returns the text of the fault.
    pub fn text(&self) -> &'static str
        ensures { result.now ≡ argument_text_of self.now }
    {
        match self {
            ArgumentFault::LogName => "log name",
            ArgumentFault::Sites => "sites",
            ArgumentFault::Letter => "letter",
            ArgumentFault::Key => "key",
            ArgumentFault::Place => "place",
            ArgumentFault::Cells => "cells",
            ArgumentFault::Salt => "salt",
            ArgumentFault::Unit => "unit",
            ArgumentFault::Memory => "out of memory",
        }
    }
}

impl fmt::Display for ArgumentFault {
    ghost output = { λ fault. Some (argument_text_of fault) };

    fn fmt<W: fmt::Write>(&self, f: &mut fmt::Formatter<W>) -> fmt::Result {
        f.write_str(self.text())
    }
}

impl Error for ArgumentFault {}
