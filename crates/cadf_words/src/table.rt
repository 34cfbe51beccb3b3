//! The commands and their words, as tables.
ghost use Rattle.std.specs.Prelude.{◌≡◌, false, IfOk, map};
ghost use Rattle.clap.specs.Words.{app_of, rule_of, shape_of};
ghost use Rattle.clap.specs.declared.builder.command.Command.TheViews.{out-Command};
ghost use Rattle.cadf_words.specs.Synopsis.{IsCommandLine, rule_of_word, shape_of_command};
ghost use Rattle.cadf_words.specs.Table.{word_of};

use clap::builder::ValueParser;
use clap::{Arg, ArgAction, Command};
use std::alloc::{AllocError, Global};

/// How a word is given.
#[derive(Clone, Copy, PartialEq, Eq)]
enum Kind {
    /// A file.
    File,
    /// One or more files.
    Files,
    /// A text, which may be empty.
    Text,
    /// `--NAME` and a text of that name, which may be empty.
    Option(&'static str),
    /// `--NAME` and a file, any number of times.
    More,
    /// `--NAME` and a unit of time, which has to be given.
    Unit,
    /// `--NAME` alone.
    Flag,
}

/// A word of a command: its name, how it is given, and its help.
type Word = (&'static str, Kind, &'static str);

const INPUTS: Word = ("FILE", Kind::Files, "Replica files, logs or events");

const FROM: Word = ("FROM", Kind::File, "The sender's file");

const MORE_FROM: Word = ("from", Kind::More, "A further file of the sender's");

const LOG: Word = (
    "log",
    Kind::Option("ID"),
    "The log's identifier, else that of the first input that names one",
);

const FACTS: Word = (
    "FACTS",
    Kind::File,
    "What is asked for: a log, an event or a replica file",
);

const KEYS: Word = (
    "keys",
    Kind::Flag,
    "Take FACTS as a list of keys, and ask whether the files have facts of them",
);

/// Each command: its name, its help, and its words in their order.
const COMMANDS: &[(&str, &str, &[Word])] = &[
    (
        "join",
        "Merges the inputs into one replica file",
        &[LOG, INPUTS],
    ),
    (
        "split",
        "Merges the inputs, and writes a replica file for each month, day or hour",
        &[
            ("by", Kind::Unit, "How long a part is, in UTC"),
            LOG,
            INPUTS,
        ],
    ),
    (
        "missing",
        "Writes the facts of FROM that TO lacks, as a replica file",
        &[
            FROM,
            ("TO", Kind::File, "The receiver's file, as it is or was"),
            MORE_FROM,
            ("to", Kind::More, "A further file of the receiver's"),
        ],
    ),
    (
        "missing-by",
        "Writes the facts of FROM that INVENTORY doesn't list, as a replica file",
        &[
            FROM,
            (
                "INVENTORY",
                Kind::File,
                "The receiver's inventory, as it is or was",
            ),
            MORE_FROM,
        ],
    ),
    (
        "inventory",
        "Lists the digests of all facts in the files",
        &[INPUTS],
    ),
    (
        "sketch",
        "Writes a short sketch of the digests of all facts in the files",
        &[
            (
                "cells",
                Kind::Option("N"),
                "How many cells, a multiple of 3 from 3 to 12582912, else 198",
            ),
            (
                "salt",
                Kind::Option("A"),
                "An odd number below 2^64, else one that follows from the digests",
            ),
            INPUTS,
        ],
    ),
    (
        "missing-by-sketch",
        "Writes the facts of FROM that the site of SKETCH lacks, as a replica file",
        &[
            FROM,
            (
                "SKETCH",
                Kind::File,
                "The receiver's sketch, as it is or was",
            ),
            MORE_FROM,
        ],
    ),
    (
        "seal",
        "Writes the number and the hash of the facts in the files, and of their keys",
        &[INPUTS],
    ),
    (
        "prove",
        "Writes a proof of which FACTS are in the files, and which are not",
        &[KEYS, FACTS, INPUTS],
    ),
    (
        "verify",
        "Checks FACTS against SEAL by PROOF, without the files",
        &[
            KEYS,
            (
                "absent",
                Kind::Flag,
                "Check that none of the facts is in the sealed files",
            ),
            ("SEAL", Kind::File, "The seal of the files"),
            FACTS,
            (
                "PROOF",
                Kind::File,
                "The proof that was made for these facts",
            ),
        ],
    ),
    (
        "sealed",
        "Lists the digests of all facts in the files, and of their keys",
        &[INPUTS],
    ),
    (
        "growth",
        "Writes a proof of how the files came of those that SEALED lists",
        &[
            (
                "SEALED",
                Kind::File,
                "The sealed list of the files as they were",
            ),
            INPUTS,
        ],
    ),
    (
        "grew",
        "Checks by PROOF that all that is sealed in OLD is sealed in NEW too",
        &[
            (
                "erased",
                Kind::Option("LIST"),
                "An erased list: what may be gone",
            ),
            ("OLD", Kind::File, "The earlier seal"),
            ("NEW", Kind::File, "The later seal"),
            (
                "PROOF",
                Kind::File,
                "The proof that was made from the one to the other",
            ),
        ],
    ),
    (
        "omit",
        "Merges the inputs, and leaves out what LIST has",
        &[
            ("LIST", Kind::File, "An erased list: what to leave out"),
            INPUTS,
        ],
    ),
    (
        "rule",
        "Merges the inputs, and adds a ruling on a conflict",
        &[
            (
                "LETTER",
                Kind::Text,
                "The key's kind: E event, G geolocation, M metric, P property, R resource",
            ),
            (
                "KEY",
                Kind::Text,
                "The identifier or the name that has several values",
            ),
            (
                "PLACE",
                Kind::Text,
                "Which of them is to be shown, from 1 in their order",
            ),
            INPUTS,
        ],
    ),
    (
        "rehearse",
        "Simulates a schedule, and counts the facts that each site ends with",
        &[
            (
                "LOG",
                Kind::Text,
                "The identifier of the log that the sites keep",
            ),
            ("SITES", Kind::Text, "How many sites there are, 1 to 64"),
            (
                "SCRIPT",
                Kind::File,
                "What the sites learn and send each other, a turn a line",
            ),
        ],
    ),
    (
        "show",
        "Prints the log in the files as JSON",
        &[
            (
                "conflicts",
                Kind::Flag,
                "Print the keys with several values instead",
            ),
            INPUTS,
        ],
    ),
    (
        "check",
        "Reads the files whole, and counts their facts and their conflicts",
        &[INPUTS],
    ),
];

/// The units of time.
const UNITS: &[&str] = &["month", "day", "hour"];

/// Makes the argument of a word. `units` takes the names of the units of time.
fn argument<'a>(alloc: Global, word: Word, units: ValueParser<'a>) -> Arg<'a>
    ensures rule { rule_of result ≡ rule_of_word units.entry (word_of word.entry) }
    ensures local { result.global ≡ false }
{
    let (name, kind, help) = word;
    let argument = Arg::new(alloc, name).help(help);
    match kind {
        Kind::File => argument.required(true),
        Kind::Files => argument.required(true).num_args(1..),
        Kind::Text => argument.required(true),
        Kind::Option(value) => argument.long(name).value_name(value),
        Kind::More => argument
            .long(name)
            .value_name("FILE")
            .action(ArgAction::Append),
        Kind::Unit => argument
            .long(name)
            .value_name("UNIT")
            .required(true)
            .value_parser(units),
        Kind::Flag => argument.long(name).action(ArgAction::SetTrue),
    }
}

/// Makes the command of that name, with its words. `Err` if an allocation fails.
fn subcommand<'a>(
    alloc: Global,
    name: &'a str,
    about: &'a str,
    words: &[Word],
    units: ValueParser<'a>,
) -> Result<Command<'a>, AllocError>
    ensures shape { IfOk result (λ c. shape_of c
        ≡ shape_of_command units.entry (name.entry.now, map word_of words.now)) }
    ensures local { IfOk result (λ c. (out-Command c).has_globals ≡ false) }
{
    let mut command = Command::new(alloc, name).about(about);
    for word in words {
        command = command.arg(argument(alloc, *word, units))?;
    }
    Ok(command)
}

/// Makes the command line's parser. `Err` if an allocation fails.
pub(crate) fn command<'a>(alloc: Global) -> Result<Command<'a>, AllocError>
    ensures { IfOk result (λ c. IsCommandLine (app_of c)) }
{
    let mut command = Command::new(alloc, "cadf")
        .version("0.1.0")
        .about("Keeps replicas of a CADF log and makes them converge")
        .subcommand_required(true);
    let units = ValueParser::Names(UNITS);
    for &(name, about, words) in COMMANDS {
        command = command.subcommand(subcommand(alloc, name, about, words, units)?)?;
    }
    Ok(command)
}
