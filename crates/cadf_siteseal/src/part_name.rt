//! Names of the parts of a site, and their order.
ghost use Rattle.std.specs.Prelude.{◌≡◌, length, IfOk};
ghost use Rattle.cadf_siteseal.specs.PartNames.{pattern, fits, all_fit, has_form, is_window, is_part, comes_before, is_after};

use cadf_json::Memory;
use cadf_split::Unit;
use std::alloc::Global;
use std::fmt;
use std::marker::Model;

/// The name of a part: `shared`, or that of a window.
#[derive(Debug, Drop)]
pub struct PartName {
    text: Vec<u8>,
}

impl Model for PartName {
    ghost use Rattle.std.specs.Prelude.{List, ℕ};
    ghost use Rattle.std.specs.Coded.{coded_ℕ, coded_list};

    ghost Value = { List ℕ };

    ghost coded = { coded_list coded_ℕ };

    ghost view = { λ n. n.text.items };
}

impl PartName {
    /// Makes the name of a text, which isn't judged. `Memory` if an allocation fails.
    pub fn of(alloc: Global, text: &[u8]) -> Result<PartName, Memory>
        ensures { IfOk result (λ n. n ≡ text.now) }
    {
        Ok(PartName {
            text: Vec::from_slice(alloc, text)?,
        })
    }

    /// Copies the name. `Memory` if an allocation fails.
    pub fn copy(&self, alloc: Global) -> Result<PartName, Memory>
        ensures { IfOk result (λ n. n ≡ self.now) }
    {
        PartName::of(alloc, self.as_bytes())
    }

    /// Returns the text.
    pub fn as_bytes(&self) -> &[u8]
        ensures { result.now ≡ self.now }
    {
        self.text.as_slice()
    }

    /// Returns whether the part comes before the other one: `shared` first, then the windows in order of time.
    pub fn comes_before(&self, other: &PartName) -> bool
        ensures { result ≡ comes_before self.now other.now }
    {
        let other = other.as_bytes();
        if other == SHARED {
            return false;
        }
        self.as_bytes() == SHARED || self.as_bytes().cmp(other).is_lt()
    }

    /// Returns whether the part comes after the other one, if there is one.
    pub(crate) fn is_after(&self, other: &Option<PartName>) -> bool
        ensures { result ≡ is_after other.now self.now }
    {
        match other {
            None => true,
            Some(other) => other.comes_before(self),
        }
    }
}

impl fmt::Display for PartName {
    fn fmt<W: fmt::Write>(&self, f: &mut fmt::Formatter<W>) -> fmt::Result {
        match str::from_utf8(self.as_bytes()) {
            Ok(text) => f.write_str(text),
            Err(_) => Err(fmt::Error),
        }
    }
}

const SHARED: &[u8] = b"shared";

/// Returns the form of a window's name: a 0 for each digit, and the marks between them.
fn pattern<'a>(unit: Unit) -> &'a [u8]
    ensures { result.now ≡ pattern unit }
{
    match unit {
        Unit::Month => b"0000-00",
        Unit::Day => b"0000-00-00",
        Unit::Hour => b"0000-00-00T00",
    }
}

/// Returns whether the byte may stand at such a place of a pattern.
fn fits(place: u8, byte: u8) -> bool
    ensures { result ≡ fits place byte }
{
    if place == b'0' {
        byte >= b'0' && byte <= b'9'
    } else {
        place == byte
    }
}

/// Returns whether each byte may stand at its place of a pattern of this length.
fn all_fit(pattern: &[u8], text: &[u8]) -> bool
    requires { length pattern.now ≡ length text.now }
    ensures { result ≡ all_fit pattern.now text.now }
{
    for index in 0..pattern.len() {
        if !fits(pattern[index], text[index]) {
            return false;
        }
    }
    true
}

/// Returns whether the text has a digit for each 0 of the pattern, and its marks.
fn has_form(pattern: &[u8], text: &[u8]) -> bool
    ensures { result ≡ has_form pattern.now text.now }
{
    if pattern.len() == text.len() {
        all_fit(pattern, text)
    } else {
        false
    }
}

/// Returns whether the text has the form of the name of a window of the unit, whether or not there is such a day.
pub fn is_window(unit: Unit, text: &[u8]) -> bool
    ensures { result ≡ is_window unit text.now }
{
    has_form(pattern(unit), text)
}

/// Returns whether the text is `shared` or has the form of the name of a window of the unit.
pub fn is_part(unit: Unit, text: &[u8]) -> bool
    ensures { result ≡ is_part unit text.now }
{
    text == SHARED || is_window(unit, text)
}
