//! What is said of facts or keys that are all as asked: a line of text for each.
ghost use Rattle.std.specs.Prelude.{◌≡◌, ◌++◌, ⊤, IfOk, OnOk, OnErr, get_or, [], is_err};
ghost use Rattle.std.specs.Io.KnownBytes.{Appends};
ghost use Rattle.cadf_json.specs.Streams.{AppendsPrefix, counted};
ghost use Rattle.cadf_join.specs.Prefixes.{texts_at};
ghost use Rattle.cadf_join.specs.Sets.{rising};
ghost use Rattle.cadf_line.specs.States.{Keeps};
ghost use Rattle.cadf_line.proofs.HashStates.{keeps_none, keeps_shared};
ghost use Rattle.cadf_evidence.specs.Told.{told_text, subject, digest_text, told_head, told_line, word_for, told, Tells};
ghost use Rattle.cadf_evidence.specs.laws.Telling.{tells_none, tells_more};

use crate::key_list::{Key, KeyList};
use cadf_join::Visitor;
use cadf_json::{Failed, Memory, Sink, push_quoted, write_all};
use cadf_key::KeyDigests;
use cadf_line::LineDigests;
use cadf_set::Replica;
use std::alloc::Global;
use std::marker::Model;

/// Lines that differ in their digests alone: what they begin with, and the digests.
#[derive(Drop)]
pub(crate) struct Alike {
    head: Vec<u8>,
    digests: Vec<[u8; 32]>,
}

/// Lines of text, one for each fact or key. What lines that follow each other begin with, as those of facts of one key do, is
/// held once.
#[derive(Drop)]
pub struct FactLines {
    lines: Vec<Alike>,
}

impl Model for FactLines {
    ghost use Rattle.std.specs.Prelude.{List, ℕ};
    ghost use Rattle.std.specs.Coded.{coded_ℕ, coded_list};
    ghost use Rattle.cadf_evidence.specs.Told.{told_text};

    ghost Value = { List ℕ };

    ghost coded = { coded_list coded_ℕ };

    ghost view = { λ t. told_text t.lines.items };
}

impl FactLines {
    /// Writes the lines, and allocates nothing. `Err`: a write failed or wrote nothing, after a prefix was written.
    pub fn write<S: Sink>(&self, sink: &mut S) -> Result<(), Failed>
        ensures bytes { OnOk result (Appends (S.written sink.old) (S.written sink.new) self.now) }
        ensures front { OnErr result (AppendsPrefix (S.written sink.old) (S.written sink.new) self.now) }
        ensures failures { S.failures sink.new ≡ counted (is_err result) (S.failures sink.old) }
    {
        let lines = self.lines.as_slice();
        for alike in lines {
            for digest in alike.digests.as_slice() {
                write_line(alike.head.as_slice(), digest, sink)?;
            }
        }
        Ok(())
    }
}

/// Writes a line: what it begins with, and the digest. `Err`: a write failed or wrote nothing, after a prefix was written.
fn write_line<S: Sink>(head: &[u8], digest: &[u8; 32], sink: &mut S) -> Result<(), Failed>
    ensures bytes { OnOk result (Appends (S.written sink.old) (S.written sink.new) (head.now ++ digest_text digest.now)) }
    ensures front { OnErr result (AppendsPrefix (S.written sink.old) (S.written sink.new) (head.now ++ digest_text digest.now)) }
    ensures failures { S.failures sink.new ≡ counted (is_err result) (S.failures sink.old) }
{
    write_all(sink, head)?;
    write_all(sink, digest_text(digest).as_slice())
}

/// Returns the digits of the digest, and a line feed.
fn digest_text(digest: &[u8; 32]) -> [u8; 65]
    ensures { result ≡ digest_text digest.now }
{
    let mut text = [b'\n'; 65];
    let _encoded = hex::encode_to_slice(digest, &mut text[..64]);
    text
}

/// Makes the lines that say of each fact that it is there, or that it is not. `Memory` if an allocation fails.
pub(crate) fn told(alloc: Global, facts: &Replica, absent: bool) -> Result<FactLines, Memory>
    ensures { IfOk result (λ lines. lines ≡ told absent (rising facts.now.atoms)) }
{
    let mut telling = Telling {
        alloc,
        absent,
        digests: LineDigests::new(alloc),
        head: Vec::new(alloc),
        lines: Vec::new(alloc),
    };
    facts.walk(&mut telling)?;
    Ok(FactLines {
        lines: telling.lines,
    })
}

/// Makes the lines that say of each key that facts have it, or that none has. `Memory` if an allocation fails.
pub(crate) fn told_keys(alloc: Global, keys: &KeyList, absent: bool) -> Result<FactLines, Memory>
    ensures { IfOk result (λ lines. lines ≡ told absent keys.now.keys) }
{
    let mut digests = KeyDigests::new(alloc);
    let mut lines = Vec::new(alloc);
    let asked = keys.keys();
    for key in asked {
        tell_key(alloc, absent, key, &mut digests, &mut lines)?;
    }
    Ok(FactLines { lines })
}

/// Appends the line of a key.
fn tell_key(
    alloc: Global,
    absent: bool,
    key: &Key,
    digests: &mut KeyDigests,
    lines: &mut Vec<Alike>,
) -> Result<(), Memory>
    ensures { OnOk result (told_text lines.new.items ≡ told_text lines.old.items ++ told_line (word_for absent) key.now) }
{
    let digest = key.digest(digests)?;
    let mut head = Vec::new(alloc);
    push_head(alloc, word_for(absent), &key.texts(), &mut head)?;
    push_line(alloc, head.as_slice(), &digest, lines)
}

/// A visitor that says of each list that it is asked to be there, or not to be. It has a buffer for a line.
#[derive(Drop)]
struct Telling {
    alloc: Global,
    absent: bool,
    digests: LineDigests,
    head: Vec<u8>,
    lines: Vec<Alike>,
}

impl Visitor for Telling {
    type Fault = Memory;

    ghost takes = { λ u qs v. Tells u.absent (told_text u.lines.items) qs v.absent (told_text v.lines.items) };

    ghost stops = { λ _ _ _ _. ⊤ };

    ghost keeps = { λ u n list. Keeps u.digests n list };

    fn visit(&mut self, list: &[&str], shared: usize) -> Result<(), Memory> {
        let digest = self.digests.digest_of(list, shared)?;
        self.head.clear();
        push_head(self.alloc, word_for(self.absent), list, &mut self.head)?;
        push_line(self.alloc, self.head.as_slice(), &digest, &mut self.lines)
    }

    ghost keeps_none = { λ u list. keeps_none u.digests list };

    ghost keeps_shared = { λ u before list n. keeps_shared u.digests before list n };

    ghost takes_none = { λ u. tells_none u.absent (told_text u.lines.items) };

    ghost takes_more = { λ u v w ps qs. tells_more u.absent v.absent w.absent _ _ _ ps qs };

    ghost stops_at_once = { λ _ _ _ _ _. tt };

    ghost stops_later = { λ _ _ _ _ _ _ _ _. tt };

    ghost stops_before = { λ _ _ _ _ _ _. tt };
}

/// Returns the word that a line begins with, and its space.
fn word_for<'a>(absent: bool) -> &'a [u8]
    ensures { result.now ≡ word_for absent }
{
    if absent { b"absent " } else { b"present " }
}

/// Appends all of an atom's line before its digest: the word, the letter and the key.
fn push_head(alloc: Global, word: &[u8], list: &[&str], text: &mut Vec<u8>) -> Result<(), Memory>
    ensures { OnOk result (text.new.items ≡ text.old.items ++ told_head word.now (texts_at list.now)) }
{
    text.extend_from_slice(word)?;
    text.extend_from_slice(text_at(list, 0).as_bytes())?;
    text.push(b' ')?;
    push_quoted(alloc, subject(list), text)?;
    text.push(b' ')?;
    Ok(())
}

/// Appends the line with this head and digest: to the last lines, if they have the same head.
fn push_line(
    alloc: Global,
    head: &[u8],
    digest: &[u8; 32],
    lines: &mut Vec<Alike>,
) -> Result<(), Memory>
    ensures { OnOk result (told_text lines.new.items ≡ told_text lines.old.items ++ (head.now ++ digest_text digest.now)) }
{
    if let Some(mut last) = lines.pop() {
        if last.head.as_slice() == head {
            last.digests.push(*digest)?;
            lines.push(last)?;
            return Ok(());
        }
        lines.push(last)?;
    }
    let mut digests = Vec::new(alloc);
    digests.push(*digest)?;
    let head = Vec::from_slice(alloc, head)?;
    lines.push(Alike { head, digests })?;
    Ok(())
}

/// Returns what an atom is of; of a ruling, what it rules on.
fn subject<'a>(list: &[&'a str]) -> &'a str
    ensures { result.now ≡ subject (texts_at list.now) }
{
    if text_at(list, 0) == "U" {
        text_at(list, 2)
    } else {
        text_at(list, 1)
    }
}

/// Returns the text at that place, or an empty one if there is none.
fn text_at<'a>(list: &[&'a str], place: usize) -> &'a str
    ensures { result.now ≡ get_or (texts_at list.now) place [] }
{
    list.get(place).copied().unwrap_or("")
}
