//! The request that a command line makes.
ghost use Rattle.std.specs.Prelude.{◌≡◌, ◌⊎◌, [], ◌∷◌, true, map, option_map, IfOk, MatchResult};
ghost use Rattle.clap.specs.Matches.{found_of};
ghost use Rattle.clap.specs.Walk.{first_of, rows_of, texts};
ghost use Rattle.clap.specs.Values.{kind_of};
ghost use Rattle.clap.specs.declared.error.kind.ErrorKind.TheVariants.{OutOfMemory};
ghost use Rattle.cadf_words.specs.Synopsis.{AreFiles, HasKindOf, IsAsked, IsFlag, IsTold, MakesRequest};
ghost use Rattle.cadf_words.specs.Synopsis.{value_of, values_of};
ghost use Rattle.cadf_words.specs.Table.{AreMatches, command_names, is_among, growth_names, names_with_files, sealing_names};

use crate::reply::Reply;
use crate::table::command;
use clap::{ArgMatches, Error};
use std::alloc::{AllocError, Global};

/// The request that the words make. Each word is kept as it was given, and is not checked yet.
#[derive(Drop)]
pub enum Request<'a> {
    Join {
        log: Option<&'a str>,
        files: Vec<&'a str>,
    },
    Split {
        by: &'a str,
        log: Option<&'a str>,
        files: Vec<&'a str>,
    },
    Missing {
        from: Vec<&'a str>,
        to: Vec<&'a str>,
    },
    MissingBy {
        from: Vec<&'a str>,
        inventory: &'a str,
    },
    Inventory {
        files: Vec<&'a str>,
    },
    Sketch {
        cells: Option<&'a str>,
        salt: Option<&'a str>,
        files: Vec<&'a str>,
    },
    MissingBySketch {
        from: Vec<&'a str>,
        sketch: &'a str,
    },
    Seal {
        files: Vec<&'a str>,
    },
    Prove {
        keys: bool,
        facts: &'a str,
        files: Vec<&'a str>,
    },
    Verify {
        keys: bool,
        absent: bool,
        seal: &'a str,
        facts: &'a str,
        proof: &'a str,
    },
    Sealed {
        files: Vec<&'a str>,
    },
    Growth {
        sealed: &'a str,
        files: Vec<&'a str>,
    },
    Grew {
        erased: Option<&'a str>,
        old: &'a str,
        new: &'a str,
        proof: &'a str,
    },
    Omit {
        list: &'a str,
        files: Vec<&'a str>,
    },
    Rule {
        letter: &'a str,
        key: &'a str,
        place: &'a str,
        files: Vec<&'a str>,
    },
    Rehearse {
        log: &'a str,
        sites: &'a str,
        script: &'a str,
    },
    Show {
        conflicts: bool,
        files: Vec<&'a str>,
    },
    Check {
        files: Vec<&'a str>,
    },
}

/// Returns the word of that name, if it is given.
fn option<'a>(matches: &ArgMatches<'a>, name: &str) -> Option<&'a str>
    ensures { option_map (λ s. s.now) result ≡ first_of name.now (rows_of (found_of matches.now)) }
{
    matches.get_str(name)
}

/// Returns the word of that name, empty if there is none.
fn word<'a>(matches: &ArgMatches<'a>, name: &str) -> &'a str
    ensures { result.now ≡ value_of name.now (rows_of (found_of matches.now)) }
{
    matches.get_str(name).unwrap_or_default()
}

/// Returns whether the flag of that name is given.
fn flag(matches: &ArgMatches<'_>, name: &str) -> bool
    ensures { IsFlag name.now (rows_of (found_of matches.now)) result }
{
    matches.get_flag(name)
}

/// Returns the words of that name.
fn words<'m, 'a>(matches: &'m ArgMatches<'a>, name: &str) -> &'m [&'a str]
    ensures { texts result.now ≡ values_of name.now (rows_of (found_of matches.now)) }
{
    matches.get_strs(name).unwrap_or_default()
}

/// Copies the words of the name `FILE`. `Err` if an allocation fails.
fn files<'a>(alloc: Global, matches: &ArgMatches<'a>) -> Result<Vec<&'a str>, AllocError>
    ensures { IfOk result (λ v. AreFiles (rows_of (found_of matches.now)) v.items) }
{
    Vec::from_slice(alloc, words(matches, "FILE"))
}

/// Returns the word of the name `first`, then the words of the option `more`. `Err` if an allocation fails.
fn first_and_more<'a>(
    alloc: Global,
    matches: &ArgMatches<'a>,
    first: &str,
    more: &str,
) -> Result<Vec<&'a str>, AllocError>
    ensures { IfOk result (λ v. texts v.items
        ≡ value_of first.now (rows_of (found_of matches.now)) ∷ values_of more.now (rows_of (found_of matches.now))) }
{
    let mut files = Vec::new(alloc);
    files.push(word(matches, first))?;
    files.extend_from_slice(words(matches, more))?;
    Ok(files)
}

/// Makes the request of a command of growth or of erasure, with its files.
fn growth_of<'a>(name: &str, matches: &ArgMatches<'a>, files: Vec<&'a str>) -> Request<'a>
    requires known { is_among growth_names name.now ≡ true }
    requires found { AreFiles (rows_of (found_of matches.now)) files.items }
    ensures { IsAsked name.now (rows_of (found_of matches.now)) result }
{
    match name {
        "sealed" => Request::Sealed { files },
        "growth" => Request::Growth {
            sealed: word(matches, "SEALED"),
            files,
        },
        "grew" => Request::Grew {
            erased: option(matches, "erased"),
            old: word(matches, "OLD"),
            new: word(matches, "NEW"),
            proof: word(matches, "PROOF"),
        },
        _ => Request::Omit {
            list: word(matches, "LIST"),
            files,
        },
    }
}

/// Makes the request of a command of seals and proofs, with its files.
fn sealing_of<'a>(name: &str, matches: &ArgMatches<'a>, files: Vec<&'a str>) -> Request<'a>
    requires known { is_among sealing_names name.now ≡ true }
    requires found { AreFiles (rows_of (found_of matches.now)) files.items }
    ensures { IsAsked name.now (rows_of (found_of matches.now)) result }
{
    match name {
        "seal" => Request::Seal { files },
        "prove" => Request::Prove {
            keys: flag(matches, "keys"),
            facts: word(matches, "FACTS"),
            files,
        },
        "verify" => Request::Verify {
            keys: flag(matches, "keys"),
            absent: flag(matches, "absent"),
            seal: word(matches, "SEAL"),
            facts: word(matches, "FACTS"),
            proof: word(matches, "PROOF"),
        },
        _ => growth_of(name, matches, files),
    }
}

/// Makes the request of a command that works on the union of its files, or of seals and proofs.
fn request_of_files<'a>(name: &str, matches: &ArgMatches<'a>, files: Vec<&'a str>) -> Request<'a>
    requires known { is_among names_with_files name.now ≡ true }
    requires found { AreFiles (rows_of (found_of matches.now)) files.items }
    ensures { IsAsked name.now (rows_of (found_of matches.now)) result }
{
    match name {
        "join" => Request::Join {
            log: option(matches, "log"),
            files,
        },
        "split" => Request::Split {
            by: word(matches, "by"),
            log: option(matches, "log"),
            files,
        },
        "inventory" => Request::Inventory { files },
        "sketch" => Request::Sketch {
            cells: option(matches, "cells"),
            salt: option(matches, "salt"),
            files,
        },
        "rule" => Request::Rule {
            letter: word(matches, "LETTER"),
            key: word(matches, "KEY"),
            place: word(matches, "PLACE"),
            files,
        },
        "show" => Request::Show {
            conflicts: flag(matches, "conflicts"),
            files,
        },
        "check" => Request::Check { files },
        _ => sealing_of(name, matches, files),
    }
}

/// Makes the request of the command of that name. `Err` if an allocation fails.
fn request_of<'a>(
    alloc: Global,
    name: &str,
    matches: &ArgMatches<'a>,
) -> Result<Request<'a>, AllocError>
    requires { is_among command_names name.now ≡ true }
    ensures { IfOk result (IsAsked name.now (rows_of (found_of matches.now))) }
{
    Ok(match name {
        "missing" => Request::Missing {
            from: first_and_more(alloc, matches, "FROM", "from")?,
            to: first_and_more(alloc, matches, "TO", "to")?,
        },
        "missing-by" => Request::MissingBy {
            from: first_and_more(alloc, matches, "FROM", "from")?,
            inventory: word(matches, "INVENTORY"),
        },
        "missing-by-sketch" => Request::MissingBySketch {
            from: first_and_more(alloc, matches, "FROM", "from")?,
            sketch: word(matches, "SKETCH"),
        },
        "rehearse" => Request::Rehearse {
            log: word(matches, "LOG"),
            sites: word(matches, "SITES"),
            script: word(matches, "SCRIPT"),
        },
        _ => request_of_files(name, matches, files(alloc, matches)?),
    })
}

/// Parses the words by `clap`. `Err`: memory ran out, or what is wrong with the words or asked by them.
fn matches_of<'a>(alloc: Global, words: &'a [String]) -> Result<ArgMatches<'a>, Error>
    ensures { MatchResult result (AreMatches (map (λ s. s.bytes.items) words.now))
        (λ e. (kind_of e ≡ OutOfMemory) ⊎ HasKindOf (map (λ s. s.bytes.items) words.now) (kind_of e)) }
{
    command(alloc)?.try_get_matches_from(words)
}

/// Parses the words of a command line, of which the first is the program's name. Returns the request that they make;
/// `Err`: the text to print for them, or `Reply::Memory`.
pub fn parse<'a>(alloc: Global, words: &'a [String]) -> Result<Request<'a>, Reply>
    ensures { MatchResult result (MakesRequest (map (λ s. s.bytes.items) words.now))
        (IsTold (map (λ s. s.bytes.items) words.now)) }
{
    let matches = matches_of(alloc, words)?;
    match matches.subcommand() {
        Some((name, matches)) => Ok(request_of(alloc, name, matches)?),
        None => unreachable!(),
    }
}
