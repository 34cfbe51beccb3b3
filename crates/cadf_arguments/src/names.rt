//! Names, letters and units of time.
ghost use Rattle.std.specs.Prelude.{◌≡◌, true, Some, None, is_ok, IfOk, IfErr, encode_utf8, if◌then◌else◌};
ghost use Rattle.cadf_arguments.specs.Arguments.{unit_named};
ghost use Rattle.cadf_event.specs.Names.{is_name};
ghost use Rattle.cadf_line.specs.RulingTexts.{is_value_letter};

use crate::fault::ArgumentFault;
use cadf_atom::KeyKind;
use cadf_event::{Name, is_valid_name};
use cadf_split::Unit;
use std::alloc::Global;

/// Reads the text as a name. `refusal`: it is none. `Memory`: it is one, and an allocation failed.
pub fn read_name(alloc: Global, text: &str, refusal: ArgumentFault) -> Result<Name, ArgumentFault>
    ensures ok { IfOk result (λ name. name ≡ text.now) }
    ensures named { IfOk result (λ _. is_name text.now ≡ true) }
    ensures err { IfErr result (λ f. f ≡ (if is_name text.now then ArgumentFault.Memory else refusal)) }
{
    if !is_valid_name(text) {
        return Err(refusal);
    }
    Name::read(alloc, text).or(Err(ArgumentFault::Memory))
}

/// Reads the identifier of a log. `LogName`: the text is no name. `Memory`: it is one, and an allocation failed.
pub fn read_log(alloc: Global, text: &str) -> Result<Name, ArgumentFault>
    ensures ok { IfOk result (λ name. name ≡ text.now) }
    ensures named { IfOk result (λ _. is_name text.now ≡ true) }
    ensures err { IfErr result (λ f. f ≡ (if is_name text.now then ArgumentFault.Memory else ArgumentFault.LogName)) }
{
    read_name(alloc, text, ArgumentFault::LogName)
}

/// Reads a key. `Key`: the text is no name. `Memory`: it is one, and an allocation failed.
pub fn read_key(alloc: Global, text: &str) -> Result<Name, ArgumentFault>
    ensures ok { IfOk result (λ name. name ≡ text.now) }
    ensures named { IfOk result (λ _. is_name text.now ≡ true) }
    ensures err { IfErr result (λ f. f ≡ (if is_name text.now then ArgumentFault.Memory else ArgumentFault.Key)) }
{
    read_name(alloc, text, ArgumentFault::Key)
}

/// Returns the letter if keys have it. `Letter`: no value has it.
pub fn check_letter(letter: char) -> Result<char, ArgumentFault>
    ensures accepts { is_ok result ≡ is_value_letter (encode_utf8 letter) }
    ensures ok { IfOk result (λ c. c ≡ letter) }
    ensures err { IfErr result (λ f. f ≡ ArgumentFault.Letter) }
{
    match KeyKind::of(letter) {
        Some(_) => Ok(letter),
        None => Err(ArgumentFault::Letter),
    }
}

/// Reads the word of a unit of time. `Unit`: it is none's.
pub fn read_unit(word: &[u8]) -> Result<Unit, ArgumentFault>
    ensures ok { IfOk result (λ unit. unit_named word.now ≡ Some unit) }
    ensures err { IfErr result (λ f. (f ≡ ArgumentFault.Unit) × (unit_named word.now ≡ None)) }
{
    match word {
        b"month" => Ok(Unit::Month),
        b"day" => Ok(Unit::Day),
        b"hour" => Ok(Unit::Hour),
        _ => Err(ArgumentFault::Unit),
    }
}
