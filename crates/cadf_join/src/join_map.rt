//! A map from texts to values of `Join`.
ghost use Rattle.std.specs.Prelude.{◌≡◌, OnOk, OnErr, IfSome, IsSome, IfOk, IsTrue, ◌↔◌, Some, None, Ok, true, false};
ghost use Rattle.std.specs.Option.{option_copied};
ghost use Rattle.std.specs.FinMap as fin;
ghost use Rattle.cadf_join.specs.Sets as set;
ghost use Rattle.cadf_join.specs.Contents.{Text, IsBetween, under, suffixes_of, next_after};
ghost use Rattle.cadf_join.specs.Maps.{contents_at, held, heads, HasKeyed, NoneIsEmpty, MapValue, map_code, map_of};
ghost use Rattle.cadf_join.specs.laws.Maps.{joined_keyed, Puts, PartMissing};

use crate::prefix::copy_with_text;
use crate::text_set::is_after;
use crate::{Join, Memory};
use std::alloc::Global;
use std::collections::BTreeMap;
use std::marker::Model;

/// A map from keys to values; maps nest. Its contents are the lists of each value, each after the value's key. No key
/// has an empty value.
#[derive(Drop)]
pub struct JoinMap<V: Join> {
    parts: BTreeMap<String, V>,
    alloc: Global,
}

impl<V: Join> Model for JoinMap<V> {
    ghost Value = { MapValue V };

    ghost coded = { map_code V.code };

    ghost view = { λ m. map_of m.parts.entries };

    ghost invariant = { λ m. NoneIsEmpty V.contents (map_of m.parts.entries) };
}

impl<V: Join> JoinMap<V> {
    /// Makes an empty map that uses this allocator. Allocates nothing.
    pub fn new(alloc: Global) -> JoinMap<V>
        ensures empty { contents_at V.contents result ≡ set.empty }
        ensures no_key { result ≡ fin.empty }
    {
        JoinMap {
            parts: BTreeMap::new(alloc),
            alloc,
        }
    }

    /// Returns the value at the key, which is not empty, or `None` if the key is absent.
    pub fn get(&self, key: &str) -> Option<&V>
        ensures part { held V.contents (option_copied result) ≡ suffixes_of (contents_at V.contents self.now) key.now }
        ensures some { IfSome result (λ v. V.contents v.now ≡ set.empty → ⊥) }
    {
        self.parts.get(key)
    }

    /// Joins a value into that of the key. An empty value changes nothing. After an `Err` the other keys are as before,
    /// and the value of this one is between its old contents and the union.
    pub fn join_at(&mut self, key: &str, value: &V) -> Result<(), Memory>
        ensures ok { OnOk result (contents_at V.contents self.new ≡ set.union (contents_at V.contents self.old) (under key.now (V.contents value.now))) }
        ensures err { OnErr result (IsBetween (contents_at V.contents self.old) (contents_at V.contents self.new)
            (set.union (contents_at V.contents self.old) (under key.now (V.contents value.now)))) }
    {
        if let Some(part) = self.parts.get_mut(key) {
            part.join(value)?;
            return Ok(());
        }
        let part = value.copy()?;
        if part.is_empty() {
            return Ok(());
        }
        self.put(key, part)
    }

    /// Returns the least key above the given text, which may be absent; for `None` the least of all. Keys are ordered
    /// by their bytes. `None` if there is no such key. Walks all keys before it.
    pub fn after(&self, text: Option<&str>) -> Option<&str>
        ensures { option_copied result ≡ next_after (heads (contents_at V.contents self.now)) (option_copied text.entry) }
    {
        for (key, _) in &self.parts {
            if is_after(text, key.as_str()) {
                return Some(key.as_str());
            }
        }
        None
    }

    /// Inserts a value that is not empty at the key. After an `Err` the map is as before.
    fn put(&mut self, key: &str, value: V) -> Result<(), Memory>
        requires { V.contents value ≡ set.empty → ⊥ }
        ensures ok { OnOk result (Puts self.old self.new key.now value) }
        ensures err { OnErr result (self.new ≡ self.old) }
    {
        self.parts
            .insert(String::from_str(self.alloc, key)?, value)?;
        Ok(())
    }

    /// Returns whether each key has the same contents in `other`.
    fn agrees_with(&self, other: &JoinMap<V>) -> bool
        ensures { IsTrue result ↔ ((k : Text) (v : V) → fin.get self.now k ≡ Some v → V.contents v ≡ held V.contents (fin.get other.now k)) }
    {
        for (key, part) in &self.parts {
            let Some(held) = other.parts.get(key.as_str()) else {
                return false;
            };
            if !part.same(held) {
                return false;
            }
        }
        true
    }

    /// Returns whether each key of `other` is present.
    fn has_keys_of(&self, other: &JoinMap<V>) -> bool
        ensures test { IsTrue result ↔ ((k : Text) → IsSome (fin.get other.now k) → IsSome (fin.get self.now k)) }
        ensures none_empty { NoneIsEmpty V.contents other.now }
    {
        for (key, _) in &other.parts {
            if !self.parts.contains_key(key.as_str()) {
                return false;
            }
        }
        true
    }
}

/// Returns the least value that has what `other` lacks, or a copy of the value if there is no other. `None` if nothing
/// is missing.
fn missing_part<V: Join>(part: &V, other: Option<&V>) -> Result<Option<V>, Memory>
    requires { V.contents part.now ≡ set.empty → ⊥ }
    ensures { IfOk result (PartMissing V.contents V.is_contents (Some part.now) (option_copied other.entry)) }
{
    match other {
        Some(other) => part.missing_from(other),
        None => Ok(Some(part.copy()?)),
    }
}

impl<V: Join> Join for JoinMap<V> {
    ghost contents = { contents_at V.contents };

    ghost is_contents = { HasKeyed V.is_contents };

    fn join(&mut self, other: &JoinMap<V>) -> Result<(), Memory> {
        for (key, part) in &other.parts {
            self.join_at(key.as_str(), part)?;
        }
        Ok(())
    }

    fn missing_from(&self, other: &JoinMap<V>) -> Result<Option<JoinMap<V>>, Memory> {
        let mut missing = JoinMap::new(self.alloc);
        for (key, part) in &self.parts {
            match missing_part(part, other.parts.get(key.as_str()))? {
                Some(lacking) => missing.put(key.as_str(), lacking)?,
                None => {}
            }
        }
        if missing.parts.is_empty() {
            return Ok(None);
        }
        Ok(Some(missing))
    }

    fn copy(&self) -> Result<JoinMap<V>, Memory> {
        let mut copied = JoinMap::new(self.alloc);
        copied.join(self)?;
        Ok(copied)
    }

    fn same(&self, other: &JoinMap<V>) -> bool {
        self.agrees_with(other) && self.has_keys_of(other)
    }

    fn is_empty(&self) -> bool {
        self.parts.is_empty()
    }

    fn list_count(&self) -> u64 {
        let mut count: u64 = 0;
        for (_, part) in &self.parts {
            count = count.saturating_add(part.list_count());
        }
        count
    }

    fn append_lists(&self, prefix: &[String], lists: &mut Vec<Vec<String>>) -> Result<(), Memory> {
        for (key, part) in &self.parts {
            let behind = copy_with_text(self.alloc, prefix, key.as_str())?;
            part.append_lists(behind.as_slice(), lists)?;
        }
        Ok(())
    }

    ghost contents_are = { joined_keyed V.contents V.is_contents V.contents_are };
}
