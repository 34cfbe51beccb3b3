//! Answers: lines to which fields are appended.

use std::alloc::{AllocError as Memory, Global};
use std::fmt::Debug;

/// Makes an answer of a plain word and texts.
pub fn answer(alloc: Global, word: &str, texts: &[&str]) -> Result<String, Memory> {
    let mut line = String::from_str(alloc, word)?;
    for text in texts {
        push(&mut line, text)?;
    }
    Ok(line)
}

/// Adds a text.
pub fn push(line: &mut String, field: &str) -> Result<(), Memory> {
    line.push('\t')?;
    push_escaped(line, field)
}

/// Adds an answer after another one.
pub fn push_answer(line: &mut String, answer: &str) -> Result<(), Memory> {
    line.push('\t')?;
    line.push_str(answer)
}

/// Returns whether the answer is that an allocation failed.
pub fn is_refused(line: &str) -> bool {
    line.starts_with("err\tMemory")
}

/// Adds bytes.
pub fn push_bytes(line: &mut String, field: &[u8]) -> Result<(), Memory> {
    line.push('\t')?;
    for chunk in field.utf8_chunks() {
        push_chunk(line, chunk.valid(), chunk.invalid())?;
    }
    Ok(())
}

/// Adds a number.
pub fn push_number(alloc: Global, line: &mut String, number: i128) -> Result<(), Memory> {
    push(line, format!(in alloc; "{number}")?.as_str())
}

/// Adds `true` or `false`.
pub fn push_truth(line: &mut String, truth: bool) -> Result<(), Memory> {
    push(line, if truth { "true" } else { "false" })
}

/// Makes the answer `err` with the fault's name and its values, each a field: `Event(1, Id)` gives `err`, `Event`, `1`,
/// `Id`.
pub fn refused(alloc: Global, fault: &impl Debug) -> Result<String, Memory> {
    let shown = format!(in alloc; "{fault:?}")?;
    let mut line = String::from_str(alloc, "err\t")?;
    for c in shown.as_str().chars() {
        push_shown(&mut line, c)?;
    }
    Ok(line)
}

/// Adds a character of a fault as it is shown.
fn push_shown(line: &mut String, c: char) -> Result<(), Memory> {
    match c {
        '(' | ',' => line.push('\t'),
        ')' | ' ' => Ok(()),
        _ => line.push(c),
    }
}

/// Adds the text, and the bytes that are no UTF-8.
fn push_chunk(line: &mut String, text: &str, bytes: &[u8]) -> Result<(), Memory> {
    push_escaped(line, text)?;
    for &byte in bytes {
        push_byte(line, byte)?;
    }
    Ok(())
}

/// Adds the text, encoded as a field.
fn push_escaped(line: &mut String, text: &str) -> Result<(), Memory> {
    for c in text.chars() {
        push_char(line, c)?;
    }
    Ok(())
}

/// Adds a character, encoded as in a field.
fn push_char(line: &mut String, c: char) -> Result<(), Memory> {
    match c {
        '\\' => line.push_str("\\\\"),
        '\t' => line.push_str("\\t"),
        '\n' => line.push_str("\\n"),
        '\r' => line.push_str("\\r"),
        '\0'..='\x1f' | '\x7f' => push_byte(line, c as u8),
        _ => line.push(c),
    }
}

/// Adds a byte by its hexadecimal digits.
fn push_byte(line: &mut String, byte: u8) -> Result<(), Memory> {
    line.push_str("\\x")?;
    line.push(hex_digit(byte >> 4))?;
    line.push(hex_digit(byte & 15))
}

/// Returns a hexadecimal digit.
fn hex_digit(value: u8) -> char {
    char::from_digit(u32::from(value), 16).unwrap_or('0')
}
