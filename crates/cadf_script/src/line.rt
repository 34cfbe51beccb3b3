//! The turn of a line, and the words of one: the part before the first space, and numbers.
ghost use Rattle.std.specs.Prelude.{◌≡◌, ◌≢◌, ◌==◌, ◌≤◌, length, MatchOption, IfOk, ℕ, List, false};
ghost use Rattle.std.specs.List.{position_or_len};
ghost use Rattle.cadf_script.specs.Script.{Command as CommandOf, word_of, IsDocumentOf, IsTurn, IsNoTurn, IsScriptNumber, AreTwo, IsSiteAndText};
ghost use Rattle.cadf_script.specs.Words.{SpellsNoDocument, HasArguments, IsCut, has_blank, is_plain_number as is_plain_word};

use cadf_event::{Document, DocumentBytesFault, Memory};
use cadf_rehearsal::Turn;
use memchr::memchr;
use std::alloc::Global;

/// The first word of a line.
#[derive(Clone, Copy)]
pub enum Command {
    Learn,
    Ask,
    Answer,
    Send,
    Deliver,
}

/// Returns the command that the word names, or `None`.
fn command_named(word: &[u8]) -> Option<Command>
    ensures { MatchOption result ((c : CommandOf) → word.now ≢ word_of c) (λ c. word.now ≡ word_of c) }
{
    match word {
        b"learn" => Some(Command::Learn),
        b"ask" => Some(Command::Ask),
        b"answer" => Some(Command::Answer),
        b"send" => Some(Command::Send),
        b"deliver" => Some(Command::Deliver),
        _ => None,
    }
}

/// Reads the document that the text encodes. `None` if it encodes none.
fn document_of(alloc: Global, text: &[u8]) -> Result<Option<Document>, Memory>
    ensures { IfOk result (λ found. MatchOption found (SpellsNoDocument text.now) (IsDocumentOf text.now)) }
{
    match Document::read_bytes(alloc, text) {
        Ok(document) => Ok(Some(document)),
        Err(fault) => match fault {
            DocumentBytesFault::Memory => Err(Memory),
            _ => Ok(None),
        },
    }
}

/// Reads the turn `learn`: a site, then a document. `None` if the words are no such turn.
fn learn(alloc: Global, words: &[u8]) -> Result<Option<Turn>, Memory>
    ensures { IfOk result (HasArguments CommandOf.Learn words.now) }
{
    let Some((site, text)) = site_and_text(words) else {
        return Ok(None);
    };
    match document_of(alloc, text)? {
        Some(document) => Ok(Some(Turn::Learn(site, document))),
        None => Ok(None),
    }
}

/// Reads the turn of this command with these words. `None` if the words don't fit the command.
fn turn_of(alloc: Global, command: Command, words: &[u8]) -> Result<Option<Turn>, Memory>
    ensures { IfOk result (HasArguments command words.now) }
{
    match command {
        Command::Learn => learn(alloc, words),
        Command::Ask => Ok(number(words).map(Turn::Ask)),
        Command::Answer => Ok(two_numbers(words).map(|pair| Turn::Answer(pair.0, pair.1))),
        Command::Send => Ok(number(words).map(Turn::Send)),
        Command::Deliver => Ok(two_numbers(words).map(|pair| Turn::Deliver(pair.0, pair.1))),
    }
}

/// Reads the turn of a line without its line feed. `None` if the line is no turn.
pub(crate) fn read_turn(alloc: Global, line: &[u8]) -> Result<Option<Turn>, Memory>
    ensures { IfOk result (λ found. MatchOption found (IsNoTurn line.now) (IsTurn line.now)) }
{
    let Some((word, words)) = cut_at_blank(line) else {
        return Ok(None);
    };
    match command_named(word) {
        Some(command) => turn_of(alloc, command, words),
        None => Ok(None),
    }
}

/// Counts the bytes before the first `mark`, or all bytes if there is none.
pub(crate) fn place_of(mark: u8, bytes: &[u8]) -> usize
    ensures place { result ≡ position_or_len (λ x. x == mark) bytes.now }
    ensures within { result ≤ length bytes.now }
{
    memchr(mark, bytes).unwrap_or(bytes.len())
}

/// Splits the bytes at the first space. `None` if there is none.
fn cut_at_blank(bytes: &[u8]) -> Option<(&[u8], &[u8])>
    ensures { MatchOption result (has_blank bytes.now ≡ false) (λ c. IsCut bytes.now c.0.now c.1.now) }
{
    let at = memchr(b' ', bytes)?;
    Some((&bytes[..at], &bytes[at + 1..]))
}

/// Returns whether the word has one to nine bytes, no plus sign at the start, and no leading zero unless it is the only
/// byte.
fn is_plain(word: &[u8]) -> bool
    ensures { result ≡ is_plain_word word.now }
{
    match word {
        [] => false,
        [first, rest @ ..] => {
            *first != b'+' && (*first != b'0' || rest.is_empty()) && rest.len() < 9
        }
    }
}

/// Reads the word as a decimal number of at most nine digits. `None` if it is none.
fn number(word: &[u8]) -> Option<usize>
    ensures { MatchOption result ((n : ℕ) → ¬ IsScriptNumber word.now n) (IsScriptNumber word.now) }
{
    if !is_plain(word) {
        return None;
    }
    let number = str::from_utf8(word).ok()?.parse::<u32>().ok()?;
    Some(number as usize)
}

/// Reads two numbers with one space between them. `None` if the words are anything else.
fn two_numbers(words: &[u8]) -> Option<(usize, usize)>
    ensures { MatchOption result ((m n : ℕ) → ¬ AreTwo words.now m n) (λ p. AreTwo words.now p.0 p.1) }
{
    let (first, second) = cut_at_blank(words)?;
    Some((number(first)?, number(second)?))
}

/// Reads the number before the first space, and returns it with the text after the space. `None` if the words are
/// anything else.
#[tactic(auto, using(crate::proofs::Cuts::no_site_uncut, crate::proofs::Cuts::no_site_number))]
fn site_and_text(words: &[u8]) -> Option<(usize, &[u8])>
    ensures { MatchOption result ((n : ℕ) (text : List ℕ) → ¬ IsSiteAndText words.now n text)
        (λ p. IsSiteAndText words.now p.0 p.1.now) }
{
    let (site, text) = cut_at_blank(words)?;
    Some((number(site)?, text))
}
