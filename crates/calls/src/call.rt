//! Calls: a name and its words, read from a line.

use std::alloc::{AllocError as Memory, Global};

/// A call's name and its words.
#[derive(Drop)]
pub struct Call {
    fields: Vec<Vec<u8>>,
}

impl Call {
    /// Parses the call in the line: fields between tabs, the name first. `Err` if an allocation fails.
    pub fn read(alloc: Global, line: &str) -> Result<Call, Memory> {
        let mut fields = Vec::new(alloc);
        for field in line.split('\t') {
            push_decoded(alloc, &mut fields, field)?;
        }
        Ok(Call { fields })
    }

    /// Returns the call's name.
    pub fn name(&self) -> &str {
        text_of(&self.fields, 0)
    }

    /// Returns the text of word `place`, from 1; empty if the word is missing or no text.
    pub fn text(&self, place: usize) -> &str {
        text_of(&self.fields, place)
    }

    /// Returns the bytes of word `place`, from 1; empty if the word is missing.
    pub fn bytes(&self, place: usize) -> &[u8] {
        match self.fields.get(place) {
            Some(field) => field.as_slice(),
            None => b"".as_slice(),
        }
    }

    /// Returns the number in word `place`, from 1; 0 if the word is no number.
    pub fn number(&self, place: usize) -> usize {
        text_of(&self.fields, place).parse().unwrap_or(0)
    }

    /// Returns the bytes that the words from the second on encode: the second, the third so often as the fourth says, and
    /// the fifth.
    pub fn repeated(&self, alloc: Global) -> Result<Vec<u8>, Memory> {
        let mut bytes = Vec::new(alloc);
        bytes.extend_from_slice(self.bytes(2))?;
        for _ in 0..self.number(4) {
            bytes.extend_from_slice(self.bytes(3))?;
        }
        bytes.extend_from_slice(self.bytes(5))?;
        Ok(bytes)
    }

    /// Counts the words.
    pub fn count(&self) -> usize {
        self.fields.len().saturating_sub(1)
    }
}

/// Returns the text of a field; empty if the field is missing or no text.
fn text_of(fields: &[Vec<u8>], place: usize) -> &str {
    match fields.get(place) {
        Some(field) => str::from_utf8(field.as_slice()).unwrap_or(""),
        None => "",
    }
}

/// Appends the bytes that the field encodes.
fn push_decoded(alloc: Global, fields: &mut Vec<Vec<u8>>, field: &str) -> Result<(), Memory> {
    fields.push(decoded(alloc, field)?)?;
    Ok(())
}

/// The state of the decoder of escapes.
#[derive(Clone, Copy, Drop)]
enum Open {
    /// No escape is open.
    Plain,
    /// A backslash was read.
    Escape,
    /// `\x` was read.
    Digits,
    /// `\x` and a first digit were read.
    Digit(u8),
}

/// Returns the bytes that the field encodes.
fn decoded(alloc: Global, field: &str) -> Result<Vec<u8>, Memory> {
    let mut bytes = Vec::new(alloc);
    let mut open = Open::Plain;
    for &byte in field.as_bytes() {
        open = next(&mut bytes, open, byte)?;
    }
    Ok(bytes)
}

/// Appends the byte that `byte` completes, if it completes one, and returns the next state.
fn next(bytes: &mut Vec<u8>, open: Open, byte: u8) -> Result<Open, Memory> {
    let ended = match (open, byte) {
        (Open::Plain, b'\\') => return Ok(Open::Escape),
        (Open::Escape, b'x') => return Ok(Open::Digits),
        (Open::Digits, _) => return Ok(Open::Digit(digit(byte))),
        (Open::Digit(high), _) => high << 4 | digit(byte),
        (Open::Escape, b't') => b'\t',
        (Open::Escape, b'n') => b'\n',
        (Open::Escape, b'r') => b'\r',
        _ => byte,
    };
    bytes.push(ended)?;
    Ok(Open::Plain)
}

/// Returns the value of a hexadecimal digit; 0 for another byte.
fn digit(byte: u8) -> u8 {
    match byte {
        b'0'..=b'9' => byte - b'0',
        b'a'..=b'f' => byte - b'a' + 10,
        _ => 0,
    }
}
