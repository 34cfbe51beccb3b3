//! The key of an atom, and its digest.
ghost use Rattle.std.specs.Prelude.{◌≡◌, IfOk, take};
ghost use Rattle.cadf_join.specs.Prefixes.{texts_at};
ghost use Rattle.cadf_key.specs.Keys.{is_ruling, key_of, key_length, key_digest};

use cadf_json::Memory;
use cadf_line::{Letter, spell_line};
use sha2::{Digest, Sha256};
use std::alloc::Global;

/// Returns whether the list begins with the letter of a ruling.
pub fn is_ruling(list: &[&str]) -> bool
    ensures { result ≡ is_ruling (texts_at list.now) }
{
    match list {
        [letter, ..] => Letter::Ruling.is(letter),
        [] => false,
    }
}

/// Counts the first texts of an atom that decide its key.
pub fn key_length(list: &[&str]) -> usize
    ensures { result ≡ key_length (texts_at list.now) }
{
    if is_ruling(list) { 3 } else { 2 }
}

/// Returns the key of an atom: its letter and its name; of a ruling those of the values that it is of.
pub fn key_of<'a, 'b>(list: &'b [&'a str]) -> &'b [&'a str]
    ensures { texts_at result.now ≡ key_of (texts_at list.now) }
{
    match list {
        [letter, values @ ..] if Letter::Ruling.is(letter) => first_two(values),
        _ => first_two(list),
    }
}

/// Returns the first two texts, or fewer if there are no more.
fn first_two<'a, 'b>(list: &'b [&'a str]) -> &'b [&'a str]
    ensures { texts_at result.now ≡ take 2 (texts_at list.now) }
{
    match list {
        [_, _, ..] => &list[..2],
        _ => list,
    }
}

/// Computes the digests of keys, one after another.
#[derive(Drop)]
pub struct KeyDigests {
    spelled: Vec<u8>,
    alloc: Global,
}

impl KeyDigests {
    /// Makes a hasher before its first key. Allocates nothing.
    pub fn new(alloc: Global) -> KeyDigests {
        KeyDigests {
            spelled: Vec::new(alloc),
            alloc,
        }
    }

    /// Returns the digest of the key of an atom: SHA-256 of its line. `Memory` if an allocation fails.
    pub fn digest_of(&mut self, list: &[&str]) -> Result<[u8; 32], Memory>
        ensures { IfOk result (λ digest. digest ≡ key_digest (texts_at list.now)) }
    {
        spell_line(self.alloc, &mut self.spelled, key_of(list))?;
        let mut hasher = Sha256::new();
        hasher.update(self.spelled.as_slice());
        Ok(hasher.finalize())
    }
}
