//! Texts with their first bytes beside them.
ghost use Rattle.std.specs.Prelude.{◌≡◌, get_or};
ghost use Rattle.std.specs.Cmp.Lexicographic.{slice_cmp};
ghost use Rattle.std.specs.Ordering.{nat_cmp};
ghost use Rattle.cadf_json.specs.Fronts.{first_bytes};

use std::cmp::Ordering;
use std::marker::Model;

/// A text with its first eight bytes as a number. Two mostly differ there, and then comparing them reads no text.
#[derive(Drop)]
pub(crate) struct Fronted<'v> {
    front: u64,
    text: &'v [u8],
}

impl<'v> Model for Fronted<'v> {
    ghost use Rattle.std.specs.Prelude.{List, ℕ};
    ghost use Rattle.cadf_json.specs.Fronts.{IsFront};

    ghost Value = { List ℕ };

    ghost view = { λ f. f.text.now };

    ghost invariant = { λ f. IsFront f.front f.text.now };
}

impl<'v> Fronted<'v> {
    /// Puts its first bytes beside the text.
    pub(crate) fn of(text: &'v [u8]) -> Fronted<'v>
        ensures { result ≡ text.now }
    {
        Fronted {
            front: front_of(text),
            text,
        }
    }

    /// Borrows the text.
    pub(crate) fn text(&self) -> &'v [u8]
        ensures { result.now ≡ self.now }
    {
        self.text
    }

    /// Compares the bytes.
    pub(crate) fn cmp(&self, other: &Fronted<'_>) -> Ordering
        ensures { result ≡ slice_cmp nat_cmp self.now other.now }
    {
        match self.front.cmp(&other.front) {
            Ordering::Equal => self.text.cmp(other.text),
            order => order,
        }
    }
}

/// Returns the first eight bytes as a number, the first byte highest, with zeros for those that aren't there.
pub fn front_of(text: &[u8]) -> u64
    ensures { result ≡ first_bytes 8 text.now }
{
    u64::from_be_bytes([
        byte_at(text, 0),
        byte_at(text, 1),
        byte_at(text, 2),
        byte_at(text, 3),
        byte_at(text, 4),
        byte_at(text, 5),
        byte_at(text, 6),
        byte_at(text, 7),
    ])
}

/// Returns the byte at that index, 0 past the last.
fn byte_at(text: &[u8], place: usize) -> u8
    ensures { result ≡ get_or text.now place 0 }
{
    *text.get(place).unwrap_or(&0)
}
