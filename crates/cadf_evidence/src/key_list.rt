//! A list of keys that are asked for.
ghost use Rattle.std.specs.Prelude.{◌≡◌, true, IfOk, IfSome, length, map, option_map};
ghost use Rattle.std.specs.List.{AllByRecursion};
ghost use Rattle.cadf_event.specs.Known.{IsNameText};
ghost use Rattle.cadf_join.specs.Prefixes.{texts_at};
ghost use Rattle.cadf_line.specs.AtomLine.{line as line_of};
ghost use Rattle.cadf_line.specs.Digest.{IsDigest, atom_digest};
ghost use Rattle.cadf_line.specs.Letters.{letter_text};
ghost use Rattle.cadf_line.specs.RulingTexts.{is_value_letter};
ghost use Rattle.cadf_evidence.specs.KeyList.{AreRisingKeys, IsKey};
ghost use Rattle.cadf_evidence.specs.KeyVerdict.{key_in, letter_in, name_before_end};
ghost use Rattle.cadf_evidence.specs.Made.{key_list_inventory};

use cadf_event::{Name, log_name};
use cadf_json::Memory;
use cadf_key::KeyDigests;
use cadf_line::{Letter, spell_line};
use cadf_set::Inventory;
use std::alloc::Global;
use std::marker::Model;

/// A key: the letter of a kind of values, and a name.
#[derive(Drop)]
pub struct Key {
    letter: Letter,
    name: Name,
}

impl Model for Key {
    ghost use Rattle.std.specs.Prelude.{◌∷◌, []};
    ghost use Rattle.cadf_join.specs.Contents.{Texts};
    ghost use Rattle.cadf_line.specs.Letters.{letter_text};
    ghost use Rattle.cadf_evidence.specs.KeyList.{coded_key, IsKey};

    ghost Value = { Texts };

    ghost coded = { coded_key };

    ghost view = { λ k. letter_text k.letter ∷ k.name ∷ [] };

    ghost invariant = { λ k. IsKey (letter_text k.letter ∷ k.name ∷ []) };
}

/// Returns the letter of values that the byte is.
fn letter_in(byte: u8) -> Option<Letter>
    ensures letter { option_map letter_text result ≡ letter_in byte }
    ensures known { IfSome result (λ l. is_value_letter (letter_text l) ≡ true) }
{
    match byte {
        b'E' => Some(Letter::Event),
        b'G' => Some(Letter::Geolocation),
        b'M' => Some(Letter::Metric),
        b'P' => Some(Letter::Property),
        b'R' => Some(Letter::Resource),
        _ => None,
    }
}

/// Returns the name whose canonical text comes before the closing bracket. `None` if the text is anything else.
#[tactic(auto, unfolding(crate::specs::KeyVerdict::name_before_end))]
fn name_before_end(alloc: Global, text: &[u8]) -> Result<Option<Name>, Memory>
    ensures { IfOk result (λ found. found ≡ name_before_end text.now) }
{
    let Some(text) = text.strip_suffix(b"]") else {
        return Ok(None);
    };
    let Ok(text) = str::from_utf8(text) else {
        return Ok(None);
    };
    log_name(alloc, text)
}

impl Key {
    /// Decodes the key of a line, its canonical text. `None` if the line is anything else, `Memory` if an allocation fails.
    pub(crate) fn of_line(alloc: Global, line: &[u8]) -> Result<Option<Key>, Memory>
        ensures { IfOk result (λ found. found ≡ key_in line.now) }
    {
        let [b'[', b'"', letter, b'"', b',', text @ ..] = line else {
            return Ok(None);
        };
        let Some(letter) = letter_in(*letter) else {
            return Ok(None);
        };
        let Some(name) = name_before_end(alloc, text)? else {
            return Ok(None);
        };
        name.type_invariant();
        Ok(Some(Key { letter, name }))
    }

    /// Returns the letter and the name.
    pub(crate) fn texts(&self) -> [&str; 2]
        ensures texts { texts_at result ≡ self.now }
        ensures key { IsKey self.now }
    {
        [self.letter.text(), self.name.as_str()]
    }

    /// Makes the line, the key's canonical text. `Memory` if an allocation fails.
    pub(crate) fn line(&self, alloc: Global) -> Result<Vec<u8>, Memory>
        ensures { IfOk result (λ text. text.items ≡ line_of self.now) }
    {
        let mut text = Vec::new(alloc);
        spell_line(alloc, &mut text, &self.texts())?;
        Ok(text)
    }

    /// Computes the digest. `Memory` if an allocation fails.
    pub(crate) fn digest(&self, digests: &mut KeyDigests) -> Result<[u8; 32], Memory>
        ensures digest { IfOk result (λ digest. digest ≡ atom_digest self.now) }
        ensures form { IfOk result (λ digest. IsDigest digest) }
    {
        digests.digest_of(&self.texts())
    }
}

/// Keys of a log that are asked for, in the order of their lines: the log's identifier, and the keys.
#[derive(Drop)]
pub struct KeyList {
    pub(crate) log: Name,
    pub(crate) keys: Option<Vec<Key>>,
}

impl Model for KeyList {
    ghost use Rattle.std.specs.Prelude.{[], option_map, unwrap_or};
    ghost use Rattle.cadf_evidence.specs.KeyList.{KeyListModel, coded_keys, AreRisingKeys};

    ghost Value = { KeyListModel };

    ghost coded = { coded_keys };

    ghost view = { λ l. record { log = l.log; keys = unwrap_or (option_map (λ v. v.items) l.keys) [] } };

    ghost invariant = { λ l. AreRisingKeys (unwrap_or (option_map (λ v. v.items) l.keys) []) };
}

impl KeyList {
    /// Returns the log's identifier.
    pub fn log(&self) -> &Name
        ensures { result.now ≡ self.now.log }
    {
        &self.log
    }

    /// States the type invariant of a list: its log is a name, and each key has a letter and a name. Does nothing.
    pub fn type_invariant(&self)
        ensures log { IsNameText self.now.log }
        ensures keys { AreRisingKeys self.now.keys }
    {
        self.log.type_invariant();
        let _keys = &self.keys;
    }

    /// Counts the keys.
    pub fn len(&self) -> usize
        ensures { result ≡ length self.now.keys }
    {
        self.keys().len()
    }

    /// Returns the keys, in the order of their lines.
    pub(crate) fn keys(&self) -> &[Key]
        ensures { result.now ≡ self.now.keys }
    {
        match &self.keys {
            None => &[],
            Some(keys) => keys.as_slice(),
        }
    }

    /// Lists the keys' digests, in the order of the keys. `Memory` if an allocation fails.
    pub(crate) fn digests(&self, alloc: Global) -> Result<Vec<[u8; 32]>, Memory>
        ensures digests { IfOk result (λ digests. digests.items ≡ map atom_digest self.now.keys) }
        ensures form { IfOk result (λ digests. AllByRecursion IsDigest digests.items) }
    {
        let mut hasher = KeyDigests::new(alloc);
        let mut digests = Vec::new(alloc);
        let keys = self.keys();
        for key in keys {
            digests.push(key.digest(&mut hasher)?)?;
        }
        Ok(digests)
    }

    /// Makes the inventory of the keys' digests, under the list's log. `Memory` if an allocation fails.
    pub(crate) fn inventory(&self, alloc: Global) -> Result<Inventory, Memory>
        ensures { IfOk result (λ n. n ≡ key_list_inventory self.now) }
    {
        let log = self.log.copy(alloc)?;
        Inventory::of(alloc, log, self.digests(alloc)?)
    }
}
