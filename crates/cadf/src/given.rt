//! Parses the words other than files: names, numbers and letters.
ghost use Rattle.std.specs.Prelude.{◌≡◌, nat_lt, slice_index};
ghost use Rattle.cadf_arguments.specs.Arguments.{is_place, is_site_count};
ghost use Rattle.cadf_sketch.specs.Layouts.{are_cells, is_salt};
ghost use Rattle.cadf.specs.Asked.{name_of, number_in, number_of, letter_of, if_given, IsRead};

use cadf_arguments::{
    ArgumentFault, check_cells, check_letter, check_place, check_salt, check_sites, read_log,
};
use cadf_event::Name;
use cadf_tool::{Cells, Salt};
use std::alloc::Global;

/// Reads the identifier of the log, if one is given. `LogName`: it is no name.
pub(crate) fn log_given(alloc: Global, word: Option<&str>) -> Result<Option<Name>, ArgumentFault>
    ensures { IsRead (if_given (name_of ArgumentFault.LogName) word.entry) result }
{
    match word {
        None => Ok(None),
        Some(word) => Ok(Some(read_log(alloc, word)?)),
    }
}

/// Returns whether the word begins with a byte above that of 0, as neither a sign nor a zero does.
fn is_plain(word: &[u8]) -> bool
    ensures { result ≡ nat_lt 48 (slice_index word.now 0) }
{
    match word {
        [] => false,
        [first, ..] => *first > b'0',
    }
}

/// Reads a positive decimal number below 2^64, without a sign or leading zeros. `None` if the word is none.
fn number_given(word: &str) -> Option<u64>
    ensures { result ≡ number_in word.now }
{
    if !is_plain(word.as_bytes()) {
        return None;
    }
    word.parse::<u64>().ok()
}

/// Reads the number of sites of a rehearsal. `Sites`: it isn't 1 to 64.
pub(crate) fn sites_given(word: &str) -> Result<usize, ArgumentFault>
    ensures { result ≡ number_of ArgumentFault.Sites is_site_count word.now }
{
    check_sites(number_given(word).ok_or(ArgumentFault::Sites)?)
}

/// Reads the letter of a kind of keys. `Letter`: the word is no such letter.
pub(crate) fn letter_given(word: &str) -> Result<char, ArgumentFault>
    ensures { result ≡ letter_of word.now }
{
    match word.parse::<char>() {
        Ok(letter) => check_letter(letter),
        Err(_) => Err(ArgumentFault::Letter),
    }
}

/// Reads the place of a value, from 1. `Place`: it isn't 1 to 999,999,999.
pub(crate) fn place_given(word: &str) -> Result<u64, ArgumentFault>
    ensures { result ≡ number_of ArgumentFault.Place is_place word.now }
{
    check_place(number_given(word).ok_or(ArgumentFault::Place)?)
}

/// Reads the number of cells of a sketch, if one is given. `Cells`: it isn't a multiple of 3 from 3 to 12,582,912.
pub(crate) fn cells_given(word: Option<&str>) -> Result<Option<Cells>, ArgumentFault>
    ensures { result ≡ if_given (number_of ArgumentFault.Cells are_cells) word.entry }
{
    match word {
        None => Ok(None),
        Some(word) => Ok(Some(check_cells(number_given(word).ok_or(ArgumentFault::Cells)?)?)),
    }
}

/// Reads the salt of a sketch, if one is given. `Salt`: it isn't an odd number below 2^64.
pub(crate) fn salt_given(word: Option<&str>) -> Result<Option<Salt>, ArgumentFault>
    ensures { result ≡ if_given (number_of ArgumentFault.Salt is_salt) word.entry }
{
    match word {
        None => Ok(None),
        Some(word) => Ok(Some(check_salt(number_given(word).ok_or(ArgumentFault::Salt)?)?)),
    }
}
